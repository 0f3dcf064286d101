use super::pieces::{TWAIN, prepared};
use entry_history::{Batch, EntryFault, HistoryReader};
use std::alloc::Global;
use std::process::Abort;
use std::test::Fail;

fn batch_of_one(rt: &impl Abort, alloc: Global) -> Result<Batch, Fail> {
    let mut batch = Batch::new(alloc);
    assert!(rt;
        batch
            .push(alloc, prepared(rt, alloc, "ULIB", TWAIN)?)
            .is_ok()
    );
    Ok(batch)
}

fn taken(alloc: Global, reader: &mut HistoryReader, batch: &Batch) -> Result<(), EntryFault> {
    reader.take(alloc, batch.payload())
}

fn count(reader: &HistoryReader) -> usize {
    reader.items().len()
}

fn set_run(batch: &mut Batch, run: u64) {
    batch.set_run(run);
}

// Whether a payload is read as so many entries in all, or refused.
fn reads(
    alloc: Global,
    reader: &mut HistoryReader,
    batch: &Batch,
    answer: Result<(), EntryFault>,
    len: usize,
) -> bool {
    taken(alloc, reader, batch) == answer && count(reader) == len
}

/// A payload of one entry is read behind what it can follow, and not where its run is too high.
#[test]
fn a_payload_is_read_again(rt: HostRuntime) -> Result<(), Fail> {
    let alloc = rt.alloc();
    let mut batch = batch_of_one(&rt, alloc)?;
    assert!(rt; batch.payload().len() == 188);
    let mut reader = HistoryReader::new(alloc, 2);
    assert!(rt; reads(alloc, &mut reader, &batch, Ok(()), 1));
    set_run(&mut batch, 3);
    assert!(rt; reads(alloc, &mut reader, &batch, Err(EntryFault::BadEntry), 1));
    set_run(&mut batch, 2);
    assert!(rt; reads(alloc, &mut reader, &batch, Ok(()), 2));
    assert!(rt; reader.into_items().len() == 2);
    Ok(())
}
