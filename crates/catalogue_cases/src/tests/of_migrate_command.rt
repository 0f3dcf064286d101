use journal_files::{HistoryEntries, JournalScan};
use marc_types::Limits;
use migrate_command::{MigrateFault, migrate};
use outside_mem::MemDisk;
use std::alloc::Global;
use std::process::Abort;
use std::test::Fail;

/// A log of version 1 with one entry, Mark Twain's authority record by loader 0.
const OLD: &[u8] =
    b"UNIONCAT JNL 01\nO\x00\x00\x00\xb3\x01\x00\x00\x00\x00\x00\x00\x00\x00\x00\x00\x00\x01\x03DLC\x00\x00\x00\x9e00158nz  a2200073n  4500001001000000003000400010100002800014400004200042\x1en79021164\x1eDLC\x1e1 \x1faTwain, Mark,\x1fd1835-1910\x1e1 \x1faClemens, Samuel Langhorne,\x1fd1835-1910\x1e\x1dC";

const LIMITS: Limits = Limits {
    entries: 8,
    bytes: 4096,
};

fn disk(alloc: Global, bytes: &[u8]) -> Result<MemDisk, MigrateFault> {
    let Ok(bytes) = bytes[..bytes.len().min(4096)].to_vec(alloc) else {
        return Err(MigrateFault::NoMemory);
    };
    Ok(MemDisk::new(alloc, bytes, Vec::new(alloc)))
}

/// The bytes of a log into which the history of another was brought.
fn migrated(alloc: Global, old: &[u8], new: &[u8]) -> Result<MemDisk, MigrateFault> {
    let mut history = HistoryEntries::new(alloc);
    if JournalScan::open(alloc, disk(alloc, old)?, LIMITS, &mut history).is_err() {
        return Err(MigrateFault::NoMemory);
    }
    match migrate(alloc, history.into_vec(), disk(alloc, new)?, LIMITS) {
        Ok(disk) => Ok(disk),
        Err((_disk, fault)) => Err(fault),
    }
}

/// Whether a second migration ends with the same log, whatever a crash at that moment leaves.
fn ends_alike(rt: &impl Abort, alloc: Global, whole: &MemDisk, moment: u64) -> Result<bool, Fail> {
    assert!(rt; moment < whole.moments());
    let left = whole.crash(alloc, moment, 1)?;
    let again = migrated(alloc, OLD, left.as_slice())?;
    Ok(again.bytes() == whole.bytes())
}

/// Whatever a crash leaves of the new log at any of its moments, a second migration ends with the same log.
#[test]
fn a_stop_loses_nothing(rt: HostRuntime) -> Result<(), Fail> {
    let whole = migrated(rt.alloc(), OLD, b"")?;
    assert!(rt; whole.bytes().len() == 209);
    for moment in 0..whole.moments() {
        assert!(rt; ends_alike(&rt, rt.alloc(), &whole, moment)?);
    }
    Ok(())
}
