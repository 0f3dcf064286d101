//! What the bytes of a journal and of a log of checkpoints hold.
ghost use Rattle.std.specs.Prelude.{◌≡◌, ◌≢◌, IfOk, IfErr};
ghost use Rattle.durable_catalogue.specs.declared.fault.OpenFault.TheVariants.{OldVersion};
ghost use Rattle.durable_catalogue.specs.Logs.{HasHistory};
ghost use Rattle.durable_catalogue.specs.Openings.{IsUnopened};
ghost use Rattle.entry_record.specs.History.{IsWithin};
ghost use Rattle.checkpoint_commands.specs.PointLogs.{IsPointLog, IsUntaken};

use checkpoint::Point;
use checkpoint_commands::read_last;
use durable_catalogue::OpenFault;
use journal_files::{HistoryEntries, JournalScan};
use marc_types::Limits;
use memory_files::ByteDisk;
use std::alloc::Global;

/// The history of a journal's bytes, of either version. A fault tells why they aren't a journal's, that their history passes these limits, or
/// want of memory.
pub(crate) fn history_of(
    alloc: Global,
    limits: Limits,
    bytes: Vec<u8>,
) -> Result<HistoryEntries, OpenFault>
    ensures history { IfOk result (λ entries. HasHistory entries bytes.items) }
    ensures within { IfOk result (λ entries. IsWithin limits entries) }
    ensures unopened { IfErr result (IsUnopened limits bytes.items) }
    ensures current { IfErr result (λ fault. fault ≢ OldVersion) }
{
    let Some(disk) = ByteDisk::new(alloc, bytes) else {
        return Err(OpenFault::NoMemory);
    };
    let mut entries = HistoryEntries::new(alloc);
    match JournalScan::open(alloc, disk, limits, &mut entries) {
        Ok(_scan) => Ok(entries),
        Err((_disk, fault)) => Err(fault),
    }
}

/// The last whole checkpoint of a log's bytes, which hold checkpoints and nothing else; none where they hold none. A fault tells why they
/// aren't such a log's, or want of memory.
pub(crate) fn last_of(alloc: Global, bytes: Vec<u8>) -> Result<Option<Point>, OpenFault>
    ensures last { IfOk result (λ last. IsPointLog last bytes.items) }
    ensures untaken { IfErr result (IsUntaken bytes.items) }
{
    let Some(disk) = ByteDisk::new(alloc, bytes) else {
        return Err(OpenFault::NoMemory);
    };
    let (_disk, last) = read_last(alloc, disk);
    last
}
