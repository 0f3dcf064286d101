//! A catalogue at its limits and over a disk that fails.
ghost use Rattle.std.specs.Prelude.{IsTrue};
ghost use Rattle.marc_types.specs.Valid.{is_code};

use super::ZOOLOGY;
use durable_catalogue::{Durable, OnClose, OpenFault};
use entry_history::Batch;
use marc_types::{CommitFault, Limits, RecordFault, Text, can_be_code};
use outside::LARGEST_BATCH;
use outside_mem::MemDisk;
use reading::prepare;
use std::alloc::Global;
use std::process::Abort;
use std::test::Fail;

const LIMITS: Limits = Limits {
    entries: 3,
    bytes: 4096,
};

/// A batch with so many copies of a record, but no more than a batch takes.
fn batch_of(alloc: Global, library: &Text, count: u32) -> Result<Batch, RecordFault>
    requires { IsTrue (is_code library.now) }
{
    let mut batch = Batch::new(alloc);
    'copies: while batch.len() < count.min(LARGEST_BATCH) {
        let ordinal = u64::from(batch.len()) + 1;
        let copy = prepare(alloc, ZOOLOGY, library, 0, ordinal)?;
        match batch.push(alloc, copy) {
            Ok(()) => {}
            Err(_) => return Err(RecordFault::NoMemory),
        }
    }
    Ok(batch)
}

/// A commit: how many entries there are, how many receipts, and its end.
type Commit = (u32, usize, Option<CommitFault>);

fn commit_each(
    rt: &impl Abort,
    alloc: Global,
    durable: &mut Durable<MemDisk>,
    commits: &[Commit],
) -> Result<(), RecordFault> {
    let library = Text::from_str(alloc, "ULIB")?;
    assert!(rt; can_be_code(library.as_bytes()));
    for (count, receipts, end) in commits {
        let batch = batch_of(alloc, &library, *count)?;
        assert!(rt; !batch.is_empty());
        let reply = durable.commit(alloc, batch);
        assert_eq!(rt; reply.receipts.len(), *receipts);
        assert_eq!(rt; reply.end, *end);
    }
    Ok(())
}

/// A catalogue over a disk, which is closed and not dropped: what drops it would take long to prove.
fn opened(rt: &impl Abort, alloc: Global, disk: MemDisk) -> Durable<MemDisk> {
    match Durable::open(alloc, disk, LIMITS) {
        Ok(durable) => durable,
        Err(_) => panic!(rt; "no journal"),
    }
}

/// The disk whose log doesn't open within some limits, and why.
fn refused(rt: &impl Abort, alloc: Global, disk: MemDisk, limits: Limits) -> (MemDisk, OpenFault) {
    match Durable::open(alloc, disk, limits) {
        Ok(durable) => {
            durable.close(OnClose::Free);
            panic!(rt; "opened")
        }
        Err(refused) => refused,
    }
}

/// A disk after some commits, behind which there are so many entries.
fn committed(
    rt: &impl Abort,
    alloc: Global,
    disk: MemDisk,
    commits: &[Commit],
    entries: u64,
) -> Result<MemDisk, RecordFault> {
    let mut durable = opened(rt, alloc, disk);
    let done = commit_each(rt, alloc, &mut durable, commits);
    assert_eq!(rt; durable.core().history_len(), entries);
    let disk = durable.close(OnClose::Free);
    done?;
    Ok(disk)
}

const FULL: Option<CommitFault> = Some(CommitFault::Full);

/// Whether commits leave three entries, in a log that doesn't open within limits of two, and does within these.
fn assert_filled(rt: &impl Abort, alloc: Global, commits: &[Commit]) -> Result<(), Fail> {
    let two = Limits {
        entries: 2,
        bytes: 4096,
    };
    let disk = disk_of(alloc, b"", &[])?;
    let disk = committed(rt, alloc, disk, commits, 3)?;
    let (disk, fault) = refused(rt, alloc, disk, two);
    assert!(rt; fault == OpenFault::Full);
    committed(rt, alloc, disk, &[], 3)?;
    Ok(())
}

/// Three entries are within the limits, one by one and as the front of a batch; a log of them opens within these limits alone.
#[test]
fn a_full_catalogue(rt: HostRuntime) -> Result<(), Fail> {
    let one_by_one = [(1, 1, None), (1, 1, None), (1, 1, None), (1, 0, FULL)];
    assert_filled(&rt, rt.alloc(), &one_by_one)?;
    assert_filled(&rt, rt.alloc(), &[(5, 3, FULL), (1, 0, FULL)])
}

const BROKEN: [Commit; 2] = [
    (1, 0, Some(CommitFault::DeviceFault)),
    (1, 0, Some(CommitFault::Broken)),
];

/// A disk with these bytes, whose listed calls fail.
fn disk_of(alloc: Global, bytes: &[u8], fails: &[u64]) -> Result<MemDisk, Fail> {
    let bytes = Vec::from_slice(alloc, &bytes[..bytes.len().min(4096)])?;
    Ok(MemDisk::new(alloc, bytes, Vec::from_slice(alloc, fails)?))
}

/// A disk with the log of which a call of the first commit fails, and so would the call behind it: the second commit makes none.
fn broken(rt: &impl Abort, alloc: Global, call: u64) -> Result<MemDisk, Fail> {
    let disk = disk_of(alloc, b"", &[call, call.saturating_add(1)])?;
    let disk = committed(rt, alloc, disk, &BROKEN, 0)?;
    assert!(rt; disk.faults() == 1);
    disk_of(alloc, disk.bytes(), &[])
}

/// The entry is read again where its gate was written: then only the sync behind it failed.
#[test]
fn a_broken_catalogue(rt: HostRuntime) -> Result<(), Fail> {
    for call in 4..8 {
        let disk = broken(&rt, rt.alloc(), call)?;
        committed(&rt, rt.alloc(), disk, &[], if call == 7 { 1 } else { 0 })?;
    }
    Ok(())
}
