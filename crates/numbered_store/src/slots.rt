ghost use Rattle.std.specs.Prelude.{◌≡◌, ◌+◌, ◌<◌, ◌≤◌, ◌^◌, length, is_some, slice_get, slice_set, Some, if◌then◌else◌};
ghost use Rattle.std.specs.Option.{option_copied, option_map};
ghost use Rattle.numbered_store.specs.Kept.{kept_record};
ghost use Rattle.numbered_store.specs.Rows.{HaveSlots, count_in, row_under, rows_by, slot_at, with_row};

use crate::kept::StoredRecord;
use marc_types::Key;
use numbering::Numbering;
use std::mem;

pub(crate) type Slots = Vec<Option<StoredRecord>>;

/// The record under the key that has the number.
pub(crate) fn kept_at<'a>(
    keys: &Numbering<Key>,
    slots: &'a Slots,
    number: u32,
) -> Option<&'a StoredRecord>
    requires { HaveSlots keys.now slots.now.items }
    ensures { option_map (λ kept. kept_record kept.now) result ≡ row_under (slice_get keys.now number) (rows_by keys.now slots.now.items) }
{
    slot(slots, number)
}

/// The record in the slot with a number.
pub(crate) fn slot(slots: &Slots, number: u32) -> Option<&StoredRecord>
    ensures { option_copied result ≡ slot_at slots.now.items number }
{
    match slots.get(number as usize) {
        Some(slot) => slot.as_ref(),
        None => None,
    }
}

/// Puts a record, or none, under the key that has the number, and gives what stood there.
pub(crate) fn exchange_slot(
    keys: &Numbering<Key>,
    slots: &mut Slots,
    number: u32,
    kept: Option<StoredRecord>,
) -> Option<StoredRecord>
    requires slots { HaveSlots keys.now slots.old.items }
    requires known { number < length keys.now }
    ensures slots { HaveSlots keys.now slots.new.items }
    ensures rows { rows_by keys.now slots.new.items ≡ with_row (slice_get keys.now number) (option_map kept_record kept) (rows_by keys.now slots.old.items) }
    ensures before { option_map kept_record result ≡ row_under (slice_get keys.now number) (rows_by keys.now slots.old.items) }
    ensures back { with_row (slice_get keys.now number) (option_map kept_record result) (rows_by keys.now slots.new.items) ≡ rows_by keys.now slots.old.items }
    ensures count { count_in keys.now slots.new.items + (if is_some result then 1 else 0) ≡ count_in keys.now slots.old.items + (if is_some kept then 1 else 0) }
    ensures there { (if is_some result then 1 else 0) ≤ count_in keys.now slots.old.items }
{
    replaced(slots, number, kept)
}

// Puts a thing into a slot, and gives what stood there.
fn replaced(slots: &mut Slots, number: u32, kept: Option<StoredRecord>) -> Option<StoredRecord>
    requires { number < length slots.old.items }
    ensures after { slots.new.items ≡ slice_set slots.old.items number kept }
    ensures before { slice_get slots.old.items number ≡ Some result }
{
    mem::replace(&mut slots[number as usize], kept)
}

/// How many rows there are once a thing has come into a slot, and what stood there has gone.
pub(crate) fn recounted(count: u64, before: &Option<StoredRecord>, more: bool) -> u64
    requires fits { count < 2 ^ 32 }
    requires there { (if is_some before.now then 1 else 0) ≤ count }
    ensures { result + (if is_some before.now then 1 else 0) ≡ count + (if more then 1 else 0) }
{
    let count = if more { count + 1 } else { count };
    match before {
        Some(_gone) => count - 1,
        None => count,
    }
}
