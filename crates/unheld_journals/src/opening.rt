//! What a journal's bytes hold.
ghost use Rattle.std.specs.Prelude.{◌≢◌, IfOk, IfErr};
ghost use Rattle.durable_catalogue.specs.declared.fault.OpenFault.TheVariants.{OldVersion};
ghost use Rattle.durable_catalogue.specs.Logs.{HasHistory};
ghost use Rattle.durable_catalogue.specs.Openings.{IsUnopened};
ghost use Rattle.entry_record.specs.History.{IsWithin};

use durable_catalogue::{OpenFault, RecoveredReadOnly};
use marc_types::Limits;
use memory_files::ByteDisk;
use std::alloc::Global;

/// The catalogue of a journal's bytes, of either version. A fault tells why they aren't a journal's, that their history passes these limits,
/// or want of memory.
pub fn catalogue_of(
    alloc: Global,
    limits: Limits,
    bytes: Vec<u8>,
) -> Result<RecoveredReadOnly<ByteDisk>, OpenFault>
    ensures history { IfOk result (λ archive. HasHistory archive.core.history bytes.items) }
    ensures within { IfOk result (λ archive. IsWithin limits archive.core.history) }
    ensures unopened { IfErr result (IsUnopened limits bytes.items) }
    ensures current { IfErr result (λ fault. fault ≢ OldVersion) }
{
    let Some(disk) = ByteDisk::new(alloc, bytes) else {
        return Err(OpenFault::NoMemory);
    };
    match RecoveredReadOnly::open(alloc, disk, limits) {
        Ok(archive) => Ok(archive),
        Err((_disk, fault)) => Err(fault),
    }
}
