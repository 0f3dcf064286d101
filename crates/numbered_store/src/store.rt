ghost use Rattle.std.specs.Prelude.{◌≡◌, ◌+◌, ◌<◌, ◌^◌, true, length, map, IsSome, IfSome, IfOk, OnOk, OnErr, Some, None, if◌then◌else◌};
ghost use Rattle.std.specs.Option.{option_map};
ghost use Rattle.marc_types.specs.declared.key.Class.{Class as AnyClass};
ghost use Rattle.marc_types.specs.declared.key.Key.{Key as AnyKey};
ghost use Rattle.marc_types.specs.Order.{same_key};
ghost use Rattle.numbering.specs.Numbers.{is_known, number_of, IsNumberOf};
ghost use Rattle.numbering.specs.declared.seat.Seat.{Seat as AnySeat};
ghost use Rattle.catalogue_rules.specs.State.{KeptField, KeptRecord, rows_of};
ghost use Rattle.catalogue_rules.specs.Receipt.{kept_under};
ghost use Rattle.numbered_store.specs.Kept.{kept_record, shown_row};
ghost use Rattle.numbered_store.specs.Rows.{IsProper};
ghost use Rattle.numbered_store.specs.Numbered.{IsNumber, empty_numbered, keys_in, record_at, with_number, with_record};
ghost use Rattle.numbered_store.specs.Changing.{ChangesByRecord};

use crate::kept::StoredRecord;
use crate::listing::RowMap;
use crate::shelf::Shelf;
use catalogue_rules::Steps;
use marc_types::{Class, Key, NoMemory};
use numbering::Numbering;
use std::alloc::Global;
use std::marker::Model;
use std::sync::ledger::Ledger;

/// The kept records of a catalogue, for each class by the numbers of their keys. A key that has a number has a place for
/// its record; numbers are never taken back.
#[derive(Drop)]
pub struct NumberedStore {
    authorities: Shelf,
    bibliographic: Shelf,
}

impl Model for NumberedStore {
    ghost use Rattle.numbered_store.specs.Numbered.{Numbered, numbered};

    ghost Value = { Numbered };

    ghost view = { λ s. numbered s.authorities s.bibliographic };
}

impl NumberedStore {
    /// A store of no record.
    pub fn new(alloc: Global) -> NumberedStore
        ensures { result ≡ empty_numbered }
    {
        NumberedStore {
            authorities: Shelf::new(alloc),
            bibliographic: Shelf::new(alloc),
        }
    }

    /// The keys of a class by their numbers.
    pub fn keys(&self, class: Class) -> &Numbering<Key>
        ensures { result.now ≡ keys_in class self.now.keys }
    {
        self.shelf(class).keys()
    }

    /// How many records of the class there are.
    pub fn count(&self, class: Class) -> u64
        ensures count { result ≡ length (rows_of class self.now.state) }
        ensures fits { result < 2 ^ 32 }
    {
        self.shelf(class).len()
    }

    /// The number of a key, which gets the next one and a place if it had none. No record changes.
    ///
    /// `NoMemory` leaves everything as it was.
    pub fn number(&mut self, alloc: Global, class: Class, key: &Key) -> Result<u32, NoMemory>
        ensures number { IfOk result (IsNumberOf same_key (keys_in class self.new.keys) key.now) }
        ensures low { IfOk result (λ number. IsNumber class number self.new) }
        ensures ok { OnOk result (self.new ≡ with_number class key.now self.old) }
        ensures err { OnErr result (self.new ≡ self.old) }
    {
        match class {
            Class::Authority => self.authorities.number(alloc, key),
            Class::Bibliographic => self.bibliographic.number(alloc, key),
        }
    }

    /// The number of a key, if it has one.
    pub fn number_of(&self, class: Class, key: &Key) -> Option<u32>
        ensures { result ≡ (if is_known same_key (keys_in class self.now.keys) key.now then Some (number_of same_key (keys_in class self.now.keys) key.now) else None) }
    {
        self.keys(class).number_of(key)
    }

    /// The record under the key that has the number, for those who only read. It counts no step.
    pub fn look(&self, class: Class, number: u32) -> Option<&StoredRecord>
        ensures { option_map (λ kept. kept_record kept.now) result ≡ record_at class number self.now }
    {
        self.shelf(class).get(number)
    }

    /// The record under the key that has the number. It counts one step.
    pub fn visit<L: Ledger>(
        &self,
        class: Class,
        number: u32,
        steps: &mut Steps<L>,
    ) -> Option<&StoredRecord>
        ensures kept { option_map (λ kept. kept_record kept.now) result ≡ record_at class number self.now }
        ensures step { steps.new ≡ steps.old + 1 }
    {
        steps.tick();
        self.shelf(class).get(number)
    }

    /// The records of a class in key order, for those who only read. It is made anew at each call.
    pub fn rows(&self, alloc: Global, class: Class) -> Result<RowMap<'_>, NoMemory>
        ensures { IfOk result (λ rows. map shown_row rows.entries ≡ rows_of class self.now.state) }
    {
        self.shelf(class).rows(alloc)
    }

    /// Each key under which a record is kept has a number.
    pub fn each_record_has_a_number(&self)
        ensures { (class : AnyClass) (key : AnyKey) → IsSome (kept_under class key self.now.state) → is_known same_key (keys_in class self.now.keys) key ≡ true }
    {
        self.authorities.each_record_has_a_number();
        self.bibliographic.each_record_has_a_number();
    }

    /// Each kept record is a MARC record.
    pub fn each_record_is_proper(&self)
        ensures { (class : AnyClass) (key : AnyKey) → IfSome (kept_under class key self.now.state) IsProper }
    {
        self.authorities.each_record_is_proper();
        self.bibliographic.each_record_is_proper();
    }

    /// Puts a record, or none, under the key that has the number, and gives what stood there. It takes no memory, and the
    /// same call with the result undoes it.
    pub fn exchange(
        &mut self,
        class: Class,
        number: u32,
        kept: Option<StoredRecord>,
    ) -> Option<StoredRecord>
        requires { IsNumber class number self.old }
        ensures now { self.new ≡ with_record class number (option_map kept_record kept) self.old }
        ensures before { option_map kept_record result ≡ record_at class number self.old }
        ensures back { with_record class number (option_map kept_record result) self.new ≡ self.old }
    {
        match class {
            Class::Authority => self.authorities.exchange(number, kept),
            Class::Bibliographic => self.bibliographic.exchange(number, kept),
        }
    }

    /// A record exchanged for itself with another field is that field exchanged.
    pub fn a_field_changes_with_its_record(&self)
        ensures { (seat : AnySeat) (h : KeptField) (r : KeptRecord) → ChangesByRecord self.now seat h r }
    {
        self.authorities.a_field_changes_with_its_record();
        self.bibliographic.a_field_changes_with_its_record();
    }

    fn shelf(&self, class: Class) -> &Shelf
        ensures rows { result.now.rows ≡ rows_of class self.now.state }
        ensures keys { result.now.keys ≡ keys_in class self.now.keys }
    {
        match class {
            Class::Authority => &self.authorities,
            Class::Bibliographic => &self.bibliographic,
        }
    }
}
