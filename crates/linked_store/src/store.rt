ghost use Rattle.std.specs.Prelude.{◌≡◌, ◌+◌, ◌<◌, ◌^◌, true, length, map, find, IfOk, OnErr, IsSome, IfSome, Some, None, if◌then◌else◌};
ghost use Rattle.marc_types.specs.declared.key.Class.{Class as AnyClass};
ghost use Rattle.marc_types.specs.declared.key.Key.{Key as AnyKey};
ghost use Rattle.catalogue_rules.specs.Choice.{has_key};
ghost use Rattle.std.specs.Option.{option_map};
ghost use Rattle.marc_types.specs.Order.{same_key};
ghost use Rattle.numbering.specs.Numbers.{is_known, number_of, IsNumberOf};
ghost use Rattle.catalogue_rules.specs.State.{linkable_authorities, rows_of};
ghost use Rattle.catalogue_rules.specs.Receipt.{kept_under};
ghost use Rattle.numbered_store.specs.Kept.{kept_record, shown_row};
ghost use Rattle.catalogue_tables.specs.Seam.{AreDistinct, keys_in};
ghost use Rattle.numbered_store.specs.Rows.{IsProper};
ghost use Rattle.linked_store.specs.Linked.{IsNumber, IsUnchanged, empty_linked, key_of, record_at};

use crate::transaction::Transaction;
use catalogue_rules::Steps;
use catalogue_tables::CatalogueTables;
use marc_types::{Class, Key, NoMemory};
use numbered_store::{NumberedStore, RowMap, StoredRecord};
use std::alloc::Global;
use std::marker::Model;
use std::sync::ledger::Ledger;

/// The kept records of a catalogue, and the tables that find places in them. The tables agree with the records, at every
/// moment that a caller sees; each change can be taken back without memory.
#[derive(Drop)]
pub struct LinkedStore {
    pub(crate) transaction: Transaction,
    pub(crate) marked: usize,
}

impl Model for LinkedStore {
    ghost use Rattle.linked_store.specs.Linked.{Linked};

    ghost Value = { Linked };

    ghost use Rattle.linked_store.specs.Sound.{IsSound, linked_view};

    ghost view = { λ s. linked_view s.transaction s.marked };

    ghost invariant = { λ s. IsSound s.transaction s.marked };
}

impl LinkedStore {
    /// No records, and nothing to go back to.
    pub(crate) fn new(alloc: Global) -> LinkedStore
        ensures { result ≡ empty_linked }
    {
        let transaction = Transaction {
            store: NumberedStore::new(alloc),
            tables: CatalogueTables::new(alloc),
            log: Vec::new(alloc),
        };
        LinkedStore {
            transaction,
            marked: 0,
        }
    }

    /// How many records of the class there are.
    pub fn count(&self, class: Class) -> u64
        ensures count { result ≡ length (rows_of class self.now.state) }
        ensures fits { result < 2 ^ 32 }
    {
        self.transaction.store.count(class)
    }

    /// The key that has the number.
    pub fn key(&self, class: Class, number: u32) -> &Key
        requires { IsNumber class number self.now.keys }
        ensures { result.now ≡ key_of class number self.now.keys }
    {
        self.transaction.store.keys(class).at(number).unwrap()
    }

    /// The number of a key, if it has one.
    pub fn number_of(&self, class: Class, key: &Key) -> Option<u32>
        ensures { result ≡ (if is_known same_key (keys_in class self.now.keys) key.now
            then Some (number_of same_key (keys_in class self.now.keys) key.now) else None) }
    {
        self.transaction.store.number_of(class, key)
    }

    /// The number of a key, which gets the next one if it had none. No record changes.
    pub fn number(&mut self, alloc: Global, class: Class, key: &Key) -> Result<u32, NoMemory>
        ensures number { IfOk result (IsNumberOf same_key (keys_in class self.new.keys) key.now) }
        ensures low { IfOk result (λ number. IsNumber class number self.new.keys) }
        ensures unchanged { IsUnchanged self.old self.new }
        ensures err { OnErr result (self.new ≡ self.old) }
    {
        self.transaction.store.number(alloc, class, key)
    }

    // The record under the key that has the number, for those who only read. It counts no step.
    pub(crate) fn look(&self, class: Class, number: u32) -> Option<&StoredRecord>
        requires { IsNumber class number self.now.keys }
        ensures { option_map (λ kept. kept_record kept.now) result ≡ record_at class number self.now }
    {
        self.transaction.store.look(class, number)
    }

    /// The record under the key that has the number. It counts one step.
    pub fn visit<L: Ledger>(
        &self,
        class: Class,
        number: u32,
        steps: &mut Steps<L>,
    ) -> Option<&StoredRecord>
        requires { IsNumber class number self.now.keys }
        ensures kept { option_map (λ kept. kept_record kept.now) result ≡ record_at class number self.now }
        ensures step { steps.new ≡ steps.old + 1 }
    {
        self.transaction.store.visit(class, number, steps)
    }

    // The records of a class in key order, for those who only read. It is made anew at each call.
    pub(crate) fn rows(&self, alloc: Global, class: Class) -> Result<RowMap<'_>, NoMemory>
        ensures { IfOk result (λ rows. map shown_row rows.entries ≡ rows_of class self.now.state) }
    {
        self.transaction.store.rows(alloc, class)
    }

    /// The key of each authority that fields can be linked to has a number.
    pub fn each_authority_has_a_number(&self)
        ensures { (key : AnyKey) → IsSome (find (has_key key) (linkable_authorities self.now.state))
            → is_known same_key self.now.keys.authorities key ≡ true }
    {
        let _transaction = &self.transaction;
    }

    /// Each key under which a record is kept has a number.
    pub fn each_record_has_a_number(&self)
        ensures { (class : AnyClass) (key : AnyKey) → IsSome (kept_under class key self.now.state)
            → is_known same_key (keys_in class self.now.keys) key ≡ true }
    {
        self.transaction.store.each_record_has_a_number();
    }

    /// Each kept record is a MARC record.
    pub fn each_record_is_proper(&self)
        ensures { (class : AnyClass) (key : AnyKey) → IfSome (kept_under class key self.now.state) IsProper }
    {
        self.transaction.store.each_record_is_proper();
    }

    /// No key has two numbers.
    pub fn each_key_has_one_number(&self)
        ensures { AreDistinct self.now.keys }
    {
        let _transaction = &self.transaction;
    }
}
