//! The index follows an authority's entry, and goes back.
ghost use Rattle.std.specs.Prelude.{◌≡◌, ℕ, ◌<◌, List, length, IfOk, OnOk, OnErr, IfSome, None};
ghost use Rattle.marc_types.specs.declared.key.Class.TheVariants.{Authority as AnAuthority};
ghost use Rattle.marc_types.specs.declared.key.Key.{Key};
ghost use Rattle.form_index.specs.Index.{IsHeld, IsInOrder, let_go, row_under};
ghost use Rattle.catalogue_rules.specs.Settle.{arrival_of};
ghost use Rattle.catalogue_tables.specs.Following.{FollowsAuthority, authority_brought};
ghost use Rattle.catalogue_tables.specs.Following.{CanRestore, IsWayBack, restored, with_row_back, without_row};

use crate::tables::CatalogueTables;
use entry_record::Preparation;
use form_index::FormRow;
use marc_types::{Key, NoMemory};
use numbering::Numbering;
use std::alloc::Global;

impl CatalogueTables {
    ghost use Rattle.catalogue_tables.specs.Tables.{OnlyIndex, OnlyIndexAndForms};

    /// The row under the number of an authority's key becomes that of its entry; a deletion, and an entry to which no field can be
    /// linked, have none. The row that stood there is taken out and given, and is the way back.
    ///
    /// `NoMemory` leaves every row as it was.
    pub fn follow_authority(
        &mut self,
        alloc: Global,
        keys: &Numbering<Key>,
        number: u32,
        item: &Preparation,
    ) -> Result<Option<FormRow>, NoMemory>
        requires class { item.now.class ≡ AnAuthority }
        requires known { number < length keys.now }
        requires ordered { IsInOrder keys.now self.old.index }
        ensures only { OnlyIndexAndForms keys.now self.old self.new }
        ensures ok { OnOk result (FollowsAuthority self.new.forms number (authority_brought (arrival_of item.now)) self.old.index self.new.index) }
        ensures back { IfOk result (λ row. IsWayBack keys.now number row self.old.index self.new.index) }
        ensures err { OnErr result (self.new.index ≡ self.old.index) }
    {
        let row = self.take_authority(keys, number);
        match self.put_entry(alloc, keys, number, item) {
            Ok(()) => Ok(row),
            Err(NoMemory) => {
                self.put_row_back(keys, number, row);
                Err(NoMemory)
            }
        }
    }

    // Puts the row of an authority's entry, if it has one, under a number that has none.
    fn put_entry(
        &mut self,
        alloc: Global,
        keys: &Numbering<Key>,
        number: u32,
        item: &Preparation,
    ) -> Result<(), NoMemory>
        requires class { item.now.class ≡ AnAuthority }
        requires known { number < length keys.now }
        requires free { row_under number self.old.index ≡ None }
        requires ordered { IsInOrder keys.now self.old.index }
        ensures only { OnlyIndexAndForms keys.now self.old self.new }
        ensures ok { OnOk result (FollowsAuthority self.new.forms number (authority_brought (arrival_of item.now)) self.old.index self.new.index) }
        ensures undone { OnOk result (without_row number self.new.index ≡ self.old.index) }
        ensures err { OnErr result (self.new.index ≡ self.old.index) }
    {
        if item.is_deletion() {
            return Ok(());
        }
        let Some(established) = item.established() else {
            return Ok(());
        };
        self.put_authority(
            alloc,
            keys,
            number,
            established,
            item.see_from().as_slice(),
            item.has_bare_heading(),
        )?;
        Ok(())
    }

    /// Goes back to the row that was taken, or to none; the row that stands there is let go. It takes no memory.
    pub fn restore_authority(&mut self, keys: &Numbering<Key>, number: u32, row: Option<FormRow>)
        requires known { number < length keys.now }
        requires ordered { IsInOrder keys.now self.old.index }
        requires held { CanRestore number row self.old.index }
        ensures only { OnlyIndex keys.now self.old self.new }
        ensures back { self.new.index ≡ restored keys.now number row self.old.index }
    {
        self.drop_authority(keys, number);
        self.put_row_back(keys, number, row);
    }

    // Lets the row under the number go, if there is one.
    fn drop_authority(&mut self, keys: &Numbering<Key>, number: u32)
        requires known { number < length keys.now }
        requires ordered { IsInOrder keys.now self.old.index }
        ensures only { OnlyIndex keys.now self.old self.new }
        ensures gone { self.new.index ≡ without_row number self.old.index }
        ensures free { row_under number self.new.index ≡ None }
    {
        match self.take_authority(keys, number) {
            Some(row) => self.let_authority_go(row),
            None => {}
        }
    }

    // Puts a row back under its number, if there is one.
    fn put_row_back(&mut self, keys: &Numbering<Key>, number: u32, row: Option<FormRow>)
        requires known { number < length keys.now }
        requires free { row_under number self.old.index ≡ None }
        requires held { IfSome row (λ r. (r.number ≡ number) × IsHeld r self.old.index) }
        requires ordered { IsInOrder keys.now self.old.index }
        ensures only { OnlyIndex keys.now self.old self.new }
        ensures back { self.new.index ≡ with_row_back keys.now row self.old.index }
    {
        match row {
            Some(row) => self.put_authority_back(keys, row),
            None => {}
        }
    }

    /// Lets a row go that was taken, and gives back its room. It takes no memory.
    pub fn let_authority_go(&mut self, row: FormRow)
        ensures only { (keys : List Key) → IsInOrder keys self.old.index → OnlyIndex keys self.old self.new }
        ensures gone { self.new.index ≡ let_go row self.old.index }
        ensures rows { (n : ℕ) → row_under n self.new.index ≡ row_under n self.old.index }
    {
        self.index.let_go(row);
    }
}
