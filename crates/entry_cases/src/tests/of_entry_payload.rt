use super::pieces::{TWAIN, prepared};
use entry_history::EntryPayload;
use entry_record::Prepared;
use marc_types::NoMemory;
use std::alloc::Global;
use std::test::Fail;

fn payload_of(alloc: Global, item: &Prepared) -> Result<EntryPayload, NoMemory> {
    EntryPayload::of(alloc, item)
}

fn is_of(alloc: Global, entry: &EntryPayload, item: &Prepared) -> Result<bool, NoMemory> {
    entry.is_of(alloc, item)
}

fn has_payload(entry: &EntryPayload) -> bool {
    entry.payload().len() == 187
}

fn set_run(item: &mut Prepared, run: u64) {
    item.set_run(run);
}

// Whether an entry's payload is its own, until the entry is of another run.
fn is_of_its_run(alloc: Global, item: &mut Prepared) -> Result<bool, NoMemory> {
    let entry = payload_of(alloc, item)?;
    let is_its = has_payload(&entry) && is_of(alloc, &entry, item)?;
    set_run(item, 1);
    Ok(is_its && !is_of(alloc, &entry, item)?)
}

/// An entry is known by its payload, and is no entry of another run.
#[test]
fn an_entry_has_its_payload(rt: HostRuntime) -> Result<(), Fail> {
    let mut item = prepared(&rt, rt.alloc(), "DLC", TWAIN)?;
    assert!(rt; is_of_its_run(rt.alloc(), &mut item)?);
    Ok(())
}
