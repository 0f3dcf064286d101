//! A linked store for those who read all of it: their looks count no step, and so no commit gets them.
ghost use Rattle.std.specs.Prelude.{◌≡◌, ◌<◌, ◌^◌, true, length, map, IfOk, IsSome, Some, None, if◌then◌else◌};
ghost use Rattle.std.specs.Borrow.{Lends, sem};
ghost use Rattle.std.specs.List.{list_any};
ghost use Rattle.std.specs.Option.{option_map};
ghost use Rattle.marc_types.specs.declared.key.Class.{Class as AnyClass};
ghost use Rattle.marc_types.specs.declared.key.Key.{Key as AnyKey};
ghost use Rattle.marc_types.specs.Order.{same_key};
ghost use Rattle.numbering.specs.Numbers.{is_known, number_of};
ghost use Rattle.catalogue_rules.specs.Choice.{is_established};
ghost use Rattle.catalogue_rules.specs.Receipt.{kept_under};
ghost use Rattle.catalogue_rules.specs.State.{kept_field, linkable_authorities, rows_of};
ghost use Rattle.catalogue_rules.specs.Store.{field_at};
ghost use Rattle.numbered_store.specs.Kept.{kept_record, shown_row};
ghost use Rattle.catalogue_tables.specs.Seam.{keys_in};
ghost use Rattle.catalogue_tables.specs.Sharing.{keys_crossing, keys_sharing, shown_keys};
ghost use Rattle.catalogue_tables.specs.Stands.{field_standing};
ghost use Rattle.linking_laws.specs.Middle.{AreAuthoritiesInOrder};
ghost use Rattle.linked_store.specs.Linked.{IsNumber, empty_linked, record_at};
ghost use Rattle.linked_store.specs.contracts.readable.ReadableStore.{the_row};
ghost use Rattle.linked_store.specs.contracts.store.LinkedStore as changed;

use crate::store::LinkedStore;
use catalogue_tables::Standing;
use marc_types::{Class, Field, Form, Key, NoMemory, Tie};
use numbered_store::{RowMap, StoredRecord};
use std::alloc::Global;
use std::marker::Model;

/// A linked store of which each record can be looked at without a step. A commit gets the `LinkedStore` within, of which no
/// `ReadableStore` can be made.
#[derive(Drop)]
pub struct ReadableStore {
    linked: LinkedStore,
}

impl Model for ReadableStore {
    ghost use Rattle.linked_store.specs.Linked.{Linked};

    ghost Value = { Linked };

    ghost view = { λ s. s.linked };
}

impl ReadableStore {
    /// No records, and nothing to go back to.
    pub fn new(alloc: Global) -> ReadableStore
        ensures { result ≡ empty_linked }
    {
        ReadableStore {
            linked: LinkedStore::new(alloc),
        }
    }

    /// The store as a commit changes it.
    pub fn as_linked_mut(&mut self) -> &mut LinkedStore
        ensures value { result.now ≡ self.old }
        ensures* writes_back { sem 𝓛 (Lends the_row changed.the_row self.entry result (λ x. x)) }
    {
        &mut self.linked
    }

    /// The store as a commit reads it.
    pub fn as_linked(&self) -> &LinkedStore
        ensures { result.now ≡ self.now }
    {
        &self.linked
    }

    /// Keeps all changes: there is no way back from here. It takes no memory.
    pub fn keep(&mut self)
        ensures { self.new ≡ record { state = self.old.state; keys = self.old.keys; marked = self.old.state; before = self.old.state } }
    {
        self.linked.keep();
    }

    /// Takes back all changes that aren't kept. It takes no memory; keys keep their numbers.
    pub fn undo(&mut self)
        ensures { self.new ≡ record { state = self.old.before; keys = self.old.keys; marked = self.old.before; before = self.old.before } }
    {
        self.linked.undo();
    }

    /// How many records of the class there are.
    pub fn count(&self, class: Class) -> u64
        ensures count { result ≡ length (rows_of class self.now.state) }
        ensures fits { result < 2 ^ 32 }
    {
        self.linked.count(class)
    }

    /// The number of a key, if it has one.
    pub fn number_of(&self, class: Class, key: &Key) -> Option<u32>
        ensures { result ≡ (if is_known same_key (keys_in class self.now.keys) key.now
            then Some (number_of same_key (keys_in class self.now.keys) key.now) else None) }
    {
        self.linked.number_of(class, key)
    }

    /// Each key under which a record is kept has a number.
    pub fn each_record_has_a_number(&self)
        ensures { (class : AnyClass) (key : AnyKey) → IsSome (kept_under class key self.now.state)
            → is_known same_key (keys_in class self.now.keys) key ≡ true }
    {
        self.linked.each_record_has_a_number();
    }

    /// The record under the key that has the number. It counts no step.
    pub fn look(&self, class: Class, number: u32) -> Option<&StoredRecord>
        requires { IsNumber class number self.now.keys }
        ensures { option_map (λ kept. kept_record kept.now) result ≡ record_at class number self.now }
    {
        self.linked.look(class, number)
    }

    /// The records of a class in key order. It is made anew at each call.
    pub fn rows(&self, alloc: Global, class: Class) -> Result<RowMap<'_>, NoMemory>
        ensures { IfOk result (λ rows. map shown_row rows.entries ≡ rows_of class self.now.state) }
    {
        self.linked.rows(alloc, class)
    }

    /// How a field with its tie stands, by the tables alone.
    pub fn standing(
        &self,
        alloc: Global,
        class: Class,
        field: &Field,
        tie: &Tie,
    ) -> Result<Standing, NoMemory>
        requires { AreAuthoritiesInOrder self.now.state }
        ensures { IfOk result (λ standing.
            standing ≡ field_standing (linkable_authorities self.now.state) class (kept_field field.now tie.now)) }
    {
        self.linked.standing(alloc, class, field, tie)
    }

    /// How the field at a place of a record stands, if there is one. It is decoded only where it isn't linked and can be a heading.
    pub fn standing_at(
        &self,
        alloc: Global,
        class: Class,
        kept: &StoredRecord,
        place: u32,
    ) -> Result<Option<Standing>, NoMemory>
        requires { AreAuthoritiesInOrder self.now.state }
        ensures { IfOk result (λ standing.
            standing ≡ option_map (field_standing (linkable_authorities self.now.state) class) (field_at place (kept_record kept.now))) }
    {
        self.linked.standing_at(alloc, class, kept, place)
    }

    /// The keys of all authorities whose heading has the form of that of a key's authority, in key order; none where the key has no
    /// authority that fields can be linked to.
    pub fn sharing(&self, alloc: Global, key: &Key) -> Result<Vec<&Key>, NoMemory>
        requires { AreAuthoritiesInOrder self.now.state }
        ensures { IfOk result (λ found. shown_keys found.items ≡ keys_sharing key.now (linkable_authorities self.now.state)) }
    {
        self.linked.sharing(alloc, key)
    }

    /// The keys of the other authorities under whose heading a key's authority is found, in key order; none where the key has no
    /// authority that fields can be linked to.
    pub fn crossing(&self, alloc: Global, key: &Key) -> Result<Vec<&Key>, NoMemory>
        requires { AreAuthoritiesInOrder self.now.state }
        ensures { IfOk result (λ found. shown_keys found.items ≡ keys_crossing key.now (linkable_authorities self.now.state)) }
    {
        self.linked.crossing(alloc, key)
    }
    /// Whether an authority that fields can be linked to has the form as its heading.
    pub fn is_established(&self, form: &Form) -> bool
        requires { AreAuthoritiesInOrder self.now.state }
        ensures { result ≡ list_any (is_established form.now) (linkable_authorities self.now.state) }
    {
        self.linked.is_established(form)
    }
}
