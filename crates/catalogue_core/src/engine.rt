//! A catalogue's state, without its history.
ghost use Rattle.std.specs.Prelude.{◌≡◌, ℕ, ◌+◌, ◌<◌, ◌≤◌, ◌^◌, length, map, IfOk, OnOk, OnErr};
ghost use Rattle.std.specs.List.{list_any};
ghost use Rattle.std.specs.Option.{option_map};
ghost use Rattle.catalogue_rules.specs.Choice.{is_established};
ghost use Rattle.catalogue_rules.specs.Store.{field_at, field_under};
ghost use Rattle.catalogue_rules.specs.State.{kept_field, linkable_authorities, rows_of};
ghost use Rattle.catalogue_tables.specs.Sharing.{keys_crossing, keys_sharing, shown_keys};
ghost use Rattle.catalogue_tables.specs.Stands.{field_standing};
ghost use Rattle.catalogue_rules.specs.Settle.{arrival_of, step};
ghost use Rattle.catalogue_rules.specs.Receipt.{kept_under};
ghost use Rattle.catalogue_rules.specs.Valid.{IsValid};
ghost use Rattle.linking_laws.specs.Visits.{touched};
ghost use Rattle.commit_stages.specs.Receipts.{AreCountsOfStep};
ghost use Rattle.catalogue_core.specs.Engines.{empty_engine, kept_engine};
ghost use Rattle.numbered_store.specs.Kept.{found_field, kept_record, shown_row};

use catalogue_rules::Steps;
use catalogue_tables::Standing;
use commit_stages::{CommitCounts, commit_entry};
use entry_record::Prepared;
use linked_store::ReadableStore;
use marc_types::{Class, Field, Form, Key, NoMemory, Place, Tie};
use numbered_store::{FoundField, RowMap, StoredRecord};
use std::alloc::Global;
use std::marker::Model;
use std::sync::ledger::Ledger;

/// The state of a catalogue, and the one to which it can go back. Contracts see both.
#[derive(Drop)]
pub struct Engine {
    store: ReadableStore,
}

impl Model for Engine {
    ghost use Rattle.catalogue_core.specs.Engines.{Engined, IsEngine};

    ghost Value = { Engined };

    ghost view = { λ e. record { state = e.store.state; before = e.store.before } };

    ghost invariant = { λ e. IsEngine e.store.state e.store.before };
}

impl Engine {
    /// No record yet.
    pub fn empty(alloc: Global) -> Engine
        ensures { result ≡ empty_engine }
    {
        Engine {
            store: ReadableStore::new(alloc),
        }
    }

    /// An engine with the state of a store into which others have put the records. There is no way back behind that state.
    pub fn from_store(mut store: ReadableStore) -> Engine
        requires { IsValid store.state }
        ensures { result ≡ kept_engine store.state }
    {
        store.keep();
        Engine { store }
    }

    /// Takes the state to that behind one more entry: the entry's record comes into its key's place, links that can't stay are
    /// ended, and every heading is settled. It visits as many records as the entry touches, at most. Want of memory changes
    /// nothing; the entry is gone then.
    pub fn step<L: Ledger>(
        &mut self,
        alloc: Global,
        item: Prepared,
        steps: &mut Steps<L>,
    ) -> Result<CommitCounts, NoMemory>
        ensures state { OnOk result (self.new.state ≡ step self.old.state (arrival_of item)) }
        ensures changes { IfOk result (AreCountsOfStep self.old.state (arrival_of item)) }
        ensures before { self.new.before ≡ self.old.before }
        ensures err { OnErr result (self.new ≡ self.old) }
        ensures visits { steps.new ≤ steps.old + touched self.old.state item }
    {
        // what its type says of the entry is needed behind the commit
        let _entry = item.entry();
        let changes = commit_entry(self.store.as_linked_mut(), alloc, item, steps)?;
        Ok(changes)
    }

    /// There is no way back behind this state. It takes no memory.
    pub fn keep(&mut self)
        ensures { self.new ≡ record { state = self.old.state; before = self.old.state } }
    {
        self.store.keep();
    }

    /// Goes back to the state before all steps that weren't kept. It takes no memory.
    pub fn undo(&mut self)
        ensures { self.new ≡ record { state = self.old.before; before = self.old.before } }
    {
        self.store.undo();
    }

    /// Says that the state is valid, whatever was committed.
    pub fn stays_valid(&self)
        ensures { IsValid self.now.state }
    {
        let _store = &self.store;
    }

    /// How many records of the class there are.
    pub fn count(&self, class: Class) -> u64
        ensures count { result ≡ length (rows_of class self.now.state) }
        ensures fits { result < 2 ^ 32 }
    {
        self.store.count(class)
    }

    /// The record under a key.
    pub fn look(&self, class: Class, key: &Key) -> Option<&StoredRecord>
        ensures { option_map (λ kept. kept_record kept.now) result ≡ kept_under class key.now self.now.state }
    {
        self.store.each_record_has_a_number();
        match self.store.number_of(class, key) {
            Some(number) => self.store.look(class, number),
            None => None,
        }
    }

    /// The field at a place, which is made from its record's bytes, with its tie.
    pub fn field_under(
        &self,
        alloc: Global,
        place: &Place,
    ) -> Result<Option<FoundField<'_>>, NoMemory>
        ensures { IfOk result (λ found. option_map found_field found ≡ field_under place.now self.now.state) }
    {
        match self.look(place.class, &place.key) {
            Some(kept) => kept.found_at(alloc, place.field),
            None => Ok(None),
        }
    }

    /// The records of a class in key order. They are put in order at each call.
    pub fn rows(&self, alloc: Global, class: Class) -> Result<RowMap<'_>, NoMemory>
        ensures { IfOk result (λ rows. map shown_row rows.entries ≡ rows_of class self.now.state) }
    {
        self.store.rows(alloc, class)
    }

    /// How a field with its tie stands, by the tables alone: an ambiguous one with the keys of the authorities that it could be linked
    /// to, in key order.
    #[tactic(auto, using(crate::proofs::Engines::valid_in_order))]
    pub fn standing(
        &self,
        alloc: Global,
        class: Class,
        field: &Field,
        tie: &Tie,
    ) -> Result<Standing, NoMemory>
        ensures { IfOk result (λ standing. standing ≡ field_standing (linkable_authorities self.now.state) class (kept_field field.now tie.now)) }
    {
        self.store.standing(alloc, class, field, tie)
    }

    /// How the field at a place of a kept record stands, if there is one. It is decoded only where it isn't linked and can be a heading.
    #[tactic(auto, using(crate::proofs::Engines::valid_in_order))]
    pub fn standing_at(
        &self,
        alloc: Global,
        class: Class,
        kept: &StoredRecord,
        place: u32,
    ) -> Result<Option<Standing>, NoMemory>
        ensures { IfOk result (λ standing.
            standing ≡ option_map (field_standing (linkable_authorities self.now.state) class) (field_at place (kept_record kept.now))) }
    {
        self.store.standing_at(alloc, class, kept, place)
    }

    /// The keys of all authorities whose heading has the form of that of a key's authority, in key order; none where the key has no
    /// authority that fields can be linked to.
    #[tactic(auto, using(crate::proofs::Engines::valid_in_order))]
    pub fn sharing(&self, alloc: Global, key: &Key) -> Result<Vec<&Key>, NoMemory>
        ensures { IfOk result (λ found. shown_keys found.items ≡ keys_sharing key.now (linkable_authorities self.now.state)) }
    {
        self.store.sharing(alloc, key)
    }

    /// The keys of the other authorities under whose heading a key's authority is found, in key order; none where the key has no
    /// authority that fields can be linked to.
    #[tactic(auto, using(crate::proofs::Engines::valid_in_order))]
    pub fn crossing(&self, alloc: Global, key: &Key) -> Result<Vec<&Key>, NoMemory>
        ensures { IfOk result (λ found. shown_keys found.items ≡ keys_crossing key.now (linkable_authorities self.now.state)) }
    {
        self.store.crossing(alloc, key)
    }
    /// Whether an authority that fields can be linked to has the form as its heading.
    #[tactic(auto, using(crate::proofs::Engines::valid_in_order))]
    pub fn is_established(&self, form: &Form) -> bool
        ensures { result ≡ list_any (is_established form.now) (linkable_authorities self.now.state) }
    {
        self.store.is_established(form)
    }
}
