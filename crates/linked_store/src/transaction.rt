//! A store, its tables and the log of their changes: each change is noted, and so it can be taken back.
ghost use Rattle.std.specs.Prelude.{◌≡◌, OnOk, IsSome, None, Some};
ghost use Rattle.std.specs.Option.{option_copied, option_map};
ghost use Rattle.marc_types.specs.declared.key.Class.TheVariants.{Authority as AnAuthority};
ghost use Rattle.catalogue_rules.specs.State.{kept_field};
ghost use Rattle.form_index.specs.Index.{IsInOrder};
ghost use Rattle.catalogue_tables.specs.Waiting.{one_or_two};
ghost use Rattle.numbered_store.specs.Kept.{kept_record};
ghost use Rattle.numbered_store.specs.Numbered.{IsNumber, SuitsSeat, field_of};
ghost use Rattle.linked_store.specs.Contents.{ToLink, ToRecord, ToWait, apply, with_field_in};
ghost use Rattle.linked_store.specs.Placing.{IsFollowed};
ghost use Rattle.linked_store.specs.Transactions.{GoesOn, WaitsNow, contents};

use crate::change::Change;
use crate::rows::{take_link, take_waiting};
use catalogue_tables::CatalogueTables;
use entry_record::Preparation;
use link_table::Link;
use marc_types::{Class, Field, Form, NoMemory, Sequence, Tie};
use numbered_store::{NumberedStore, StoredRecord};
use numbering::Seat;
use std::alloc::Global;

#[derive(Drop)]
pub(crate) struct Transaction {
    pub(crate) store: NumberedStore,
    pub(crate) tables: CatalogueTables,
    pub(crate) log: Vec<Change>,
}

impl Transaction {
    /// Exchanges a field and its tie: the record is written anew with them, and comes in place of the one that stands there.
    pub(crate) fn swap(
        &mut self,
        alloc: Global,
        seat: Seat,
        field: &Field,
        tie: Tie,
    ) -> Result<(), NoMemory>
        requires stands { IsSome (field_of seat self.old.store) }
        requires suits { SuitsSeat seat field.now self.old.store }
        ensures now { OnOk result (contents self.new ≡ with_field_in seat (kept_field field.now tie) (contents self.old)) }
        ensures goes { GoesOn self.old self.new }
        ensures tables { self.new.tables ≡ self.old.tables }
    {
        self.store.a_field_changes_with_its_record();
        // a record stands there, since a field stands at the seat
        let kept = self.store.look(seat.class, seat.number).unwrap();
        let kept = kept.with_field(alloc, seat.field, field, tie)?;
        self.exchange(seat.class, seat.number, Some(kept))
    }

    /// Exchanges a record, or none.
    pub(crate) fn exchange(
        &mut self,
        class: Class,
        number: u32,
        kept: Option<StoredRecord>,
    ) -> Result<(), NoMemory>
        requires { IsNumber class number self.old.store }
        ensures now { OnOk result (contents self.new ≡ apply (ToRecord class number (option_map kept_record kept)) (contents self.old)) }
        ensures goes { GoesOn self.old self.new }
        ensures tables { self.new.tables ≡ self.old.tables }
    {
        self.log.reserve(1)?;
        let before = self.store.exchange(class, number, kept);
        self.log.push_reserved(Change::Exchanged {
            class,
            number,
            before,
        });
        Ok(())
    }

    /// The row of the index under the number becomes that of an authority's entry.
    pub(crate) fn follow(
        &mut self,
        alloc: Global,
        number: u32,
        item: &Preparation,
    ) -> Result<(), NoMemory>
        requires class { item.now.class ≡ AnAuthority }
        requires known { IsNumber AnAuthority number self.old.store }
        requires ordered { IsInOrder self.old.store.keys.authorities self.old.tables.index }
        ensures now { OnOk result (IsFollowed number item.now self.old self.new) }
        ensures goes { GoesOn self.old self.new }
        ensures store { self.new.store ≡ self.old.store }
    {
        self.log.reserve(1)?;
        let keys = self.store.keys(Class::Authority);
        let before = self.tables.follow_authority(alloc, keys, number, item)?;
        self.log.push_reserved(Change::Followed { number, before });
        Ok(())
    }

    /// Takes the seat's link out, if there is one.
    pub(crate) fn unlink(&mut self, seat: Seat) -> Result<(), NoMemory>
        ensures now { OnOk result (contents self.new ≡ apply (ToLink seat None) (contents self.old)) }
        ensures goes { GoesOn self.old self.new }
        ensures store { self.new.store ≡ self.old.store }
    {
        self.log.reserve(1)?;
        let before = take_link(&mut self.tables, seat);
        if before.is_none() {
            return Ok(());
        }
        self.log.push_reserved(Change::Relinked { seat, before });
        Ok(())
    }

    /// Links a seat that is linked to no authority.
    pub(crate) fn link(&mut self, alloc: Global, seat: Seat, number: u32) -> Result<(), NoMemory>
        requires { (contents self.old).links seat ≡ None }
        ensures now { OnOk result (contents self.new ≡ apply (ToLink seat (Some number)) (contents self.old)) }
        ensures goes { GoesOn self.old self.new }
        ensures store { self.new.store ≡ self.old.store }
    {
        self.log.reserve(1)?;
        self.tables.add_link(alloc, Link { number, seat })?;
        self.log
            .push_reserved(Change::Relinked { seat, before: None });
        Ok(())
    }

    /// Takes all that a seat waits for out, if there is any.
    pub(crate) fn unwait(&mut self, seat: Seat) -> Result<(), NoMemory>
        ensures now { OnOk result (contents self.new ≡ apply (ToWait seat None) (contents self.old)) }
        ensures goes { GoesOn self.old self.new }
        ensures store { self.new.store ≡ self.old.store }
    {
        self.log.reserve(1)?;
        let before = take_waiting(&mut self.tables, seat);
        if before.is_none() {
            return Ok(());
        }
        self.log.push_reserved(Change::Awaited { seat, before });
        Ok(())
    }

    /// Lets a seat that waits for nothing wait for one form or two, and for the keys with these numbers.
    pub(crate) fn wait(
        &mut self,
        alloc: Global,
        seat: Seat,
        form: &Form,
        other: Option<&Form>,
        keys: Sequence<u32>,
    ) -> Result<(), NoMemory>
        requires { (contents self.old).waits seat ≡ None }
        ensures now { OnOk result (WaitsNow seat (one_or_two form.now (option_copied other.entry)) keys self.old self.new) }
        ensures goes { GoesOn self.old self.new }
        ensures store { self.new.store ≡ self.old.store }
    {
        self.log.reserve(1)?;
        self.tables.add_waiting(alloc, seat, form, other, keys)?;
        self.log
            .push_reserved(Change::Awaited { seat, before: None });
        Ok(())
    }
}
