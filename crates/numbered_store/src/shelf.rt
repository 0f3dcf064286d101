ghost use Rattle.std.specs.Prelude.{◌≡◌, ℕ, ◌<◌, ◌^◌, true, [], length, map, IsSome, IfSome, IfOk, OnOk, OnErr, slice_get};
ghost use Rattle.std.specs.Map.{lookup};
ghost use Rattle.std.specs.Option.{option_map};
ghost use Rattle.marc_types.specs.declared.key.Key.{Key as AnyKey};
ghost use Rattle.marc_types.specs.Order.{same_key};
ghost use Rattle.numbering.specs.Numbers.{is_known, with_thing, IsNumberOf};
ghost use Rattle.catalogue_rules.specs.State.{KeptField, KeptRecord};
ghost use Rattle.numbered_store.specs.Kept.{kept_record, shown_row};
ghost use Rattle.numbered_store.specs.Rows.{IsProper, row_under, with_row};
ghost use Rattle.numbered_store.specs.Changing.{ChangesByRow};

use crate::kept::StoredRecord;
use crate::listing::{RowMap, in_order};
use crate::slots::{Slots, exchange_slot, kept_at, recounted};
use marc_types::{Key, NoMemory};
use numbering::Numbering;
use std::alloc::Global;
use std::marker::Model;

/// The records of one class. Each known key has a slot at its number, which holds its record or is blank.
#[derive(Drop)]
pub(crate) struct Shelf {
    keys: Numbering<Key>,
    slots: Slots,
    count: u64,
}

impl Model for Shelf {
    ghost use Rattle.std.specs.Prelude.{◌≡◌};
    ghost use Rattle.numbered_store.specs.Rows.{HaveSlots, Shelved, count_in, shelved};

    ghost Value = { Shelved };

    ghost view = { λ s. shelved s.keys s.slots.items };

    ghost invariant = { λ s. HaveSlots s.keys s.slots.items × (s.count ≡ count_in s.keys s.slots.items) };
}

impl Shelf {
    pub(crate) fn new(alloc: Global) -> Shelf
        ensures keys { result.keys ≡ [] }
        ensures rows { result.rows ≡ [] }
    {
        Shelf {
            keys: Numbering::new(alloc),
            slots: Vec::new(alloc),
            count: 0,
        }
    }

    pub(crate) fn keys(&self) -> &Numbering<Key>
        ensures { result.now ≡ self.now.keys }
    {
        &self.keys
    }

    /// How many records there are.
    pub(crate) fn len(&self) -> u64
        ensures count { result ≡ length self.now.rows }
        ensures fits { result < 2 ^ 32 }
    {
        let _known = self.keys.len();
        self.count
    }

    /// The number of a key, which gets the next one and a blank slot if it had none.
    #[tactic(auto, using(crate::proofs::Shelving::low_number))]
    pub(crate) fn number(&mut self, alloc: Global, key: &Key) -> Result<u32, NoMemory>
        ensures number { IfOk result (IsNumberOf same_key self.new.keys key.now) }
        ensures low { IfOk result (λ number. number < length self.new.keys) }
        ensures ok { OnOk result (self.new.keys ≡ with_thing same_key self.old.keys key.now) }
        ensures rows { self.new.rows ≡ self.old.rows }
        ensures err { OnErr result (self.new ≡ self.old) }
    {
        // room first: a key that has its number has its slot
        self.slots.reserve(1)?;
        let number = self.keys.add(alloc, key)?;
        if self.slots.len() < self.keys.len() {
            self.slots.push_reserved(None);
        }
        Ok(number)
    }

    /// The records in the order of their keys.
    pub(crate) fn rows(&self, alloc: Global) -> Result<RowMap<'_>, NoMemory>
        ensures { IfOk result (λ rows. map shown_row rows.entries ≡ self.now.rows) }
    {
        in_order(alloc, &self.keys, &self.slots)
    }

    /// Each key under which a record stands has a number.
    pub(crate) fn each_record_has_a_number(&self)
        ensures { (key : AnyKey) → IsSome (lookup (same_key key) self.now.rows) → is_known same_key self.now.keys key ≡ true }
    {
        let _slots = &self.slots;
    }

    /// Each record that stands here is a MARC record.
    pub(crate) fn each_record_is_proper(&self)
        ensures { (key : AnyKey) → IfSome (lookup (same_key key) self.now.rows) IsProper }
    {
        let _slots = &self.slots;
    }

    pub(crate) fn get(&self, number: u32) -> Option<&StoredRecord>
        ensures { option_map (λ kept. kept_record kept.now) result ≡ row_under (slice_get self.now.keys number) self.now.rows }
    {
        kept_at(&self.keys, &self.slots, number)
    }

    /// Puts a record, or none, under the key that has the number, and gives what stood there.
    pub(crate) fn exchange(
        &mut self,
        number: u32,
        kept: Option<StoredRecord>,
    ) -> Option<StoredRecord>
        requires { number < length self.old.keys }
        ensures rows { self.new.rows ≡ with_row (slice_get self.old.keys number) (option_map kept_record kept) self.old.rows }
        ensures before { option_map kept_record result ≡ row_under (slice_get self.old.keys number) self.old.rows }
        ensures back { with_row (slice_get self.new.keys number) (option_map kept_record result) self.new.rows ≡ self.old.rows }
        ensures keys { self.new.keys ≡ self.old.keys }
    {
        let more = kept.is_some();
        // a numbering is short, and so the count fits
        let _known = self.keys.len();
        let before = exchange_slot(&self.keys, &mut self.slots, number, kept);
        self.count = recounted(self.count, &before, more);
        before
    }

    /// A record exchanged for itself with another field is that field exchanged.
    pub(crate) fn a_field_changes_with_its_record(&self)
        ensures { (key : AnyKey) (place : ℕ) (h : KeptField) (r : KeptRecord) → ChangesByRow self.now.rows key place h r }
    {
        let _slots = &self.slots;
    }
}
