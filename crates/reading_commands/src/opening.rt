//! What a journal's bytes hold.
ghost use Rattle.std.specs.Prelude.{◌≡◌, ◌≢◌, IfOk, IfErr};
ghost use Rattle.durable_catalogue.specs.declared.fault.OpenFault.TheVariants.{OldVersion};
ghost use Rattle.durable_catalogue.specs.Logs.{HasHistory};
ghost use Rattle.durable_catalogue.specs.Openings.{IsUnopened};
ghost use Rattle.journal_files.specs.Taking.{IsHandedOn};
ghost use Rattle.match_report.specs.Matches.{table_after};

use archive_commands::HistoryMatches;
use durable_catalogue::OpenFault;
use journal_files::JournalScan;
use marc_types::Limits;
use memory_files::ByteDisk;
use std::alloc::Global;

/// The numbers of the records of a journal's bytes, of either version. A fault tells why they aren't a journal's, that their history passes
/// the limits, or want of memory.
pub fn matches_of(
    alloc: Global,
    limits: Limits,
    bytes: Vec<u8>,
) -> Result<HistoryMatches, OpenFault>
    ensures taken { IfOk result (λ taken. IsHandedOn (λ entries. taken.table ≡ table_after entries)
        (λ entries. HasHistory entries bytes.items) limits) }
    ensures unopened { IfErr result (IsUnopened limits bytes.items) }
    ensures current { IfErr result (λ fault. fault ≢ OldVersion) }
{
    let Some(disk) = ByteDisk::new(alloc, bytes) else {
        return Err(OpenFault::NoMemory);
    };
    let mut taken = HistoryMatches::new(alloc);
    match JournalScan::open(alloc, disk, limits, &mut taken) {
        Ok(_scan) => Ok(taken),
        Err((_disk, fault)) => Err(fault),
    }
}
