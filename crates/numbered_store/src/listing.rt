ghost use Rattle.std.specs.Prelude.{◌≡◌, IfOk, OnOk, slice_get};
ghost use Rattle.numbered_store.specs.Rows.{HaveSlots, rows_by, slot_at, with_slot};
ghost use Rattle.numbered_store.specs.Lent.{shown_rows};

use crate::kept::StoredRecord;
use crate::slots::{Slots, slot};
use marc_types::{Key, NoMemory};
use numbering::Numbering;
use std::alloc::Global;
use std::collections::BTreeMap;

/// Records in key order, as they are lent.
pub type RowMap<'a> = BTreeMap<&'a Key, &'a StoredRecord>;

/// The records of the slots in the order of their keys, put in from the last number to the first.
#[tactic(auto, using(crate::proofs::Listed::all_in, crate::proofs::Listed::none_in))]
pub(crate) fn in_order<'a>(
    alloc: Global,
    keys: &'a Numbering<Key>,
    slots: &'a Slots,
) -> Result<RowMap<'a>, NoMemory>
    requires { HaveSlots keys.now slots.now.items }
    ensures { IfOk result (λ rows. shown_rows rows.entries ≡ rows_by keys.now slots.now.items) }
{
    let mut rows = BTreeMap::new(alloc);
    let known = keys.len();
    for done in 0..known {
        put_in(&mut rows, keys, slots, (known - 1 - done) as u32)?;
    }
    Ok(rows)
}

#[tactic(auto, using(crate::proofs::Listed::shown_insert))]
fn put_in<'a>(
    rows: &mut RowMap<'a>,
    keys: &'a Numbering<Key>,
    slots: &'a Slots,
    number: u32,
) -> Result<(), NoMemory>
    ensures { OnOk result (shown_rows rows.new.entries
        ≡ with_slot (slice_get keys.now number) (slot_at slots.now.items number) (shown_rows rows.old.entries)) }
{
    let Some(key) = keys.at(number) else {
        return Ok(());
    };
    let Some(kept) = slot(slots, number) else {
        return Ok(());
    };
    rows.insert(key, kept)?;
    Ok(())
}
