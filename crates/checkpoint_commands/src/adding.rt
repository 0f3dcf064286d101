//! A checkpoint that is put behind those of a log.
ghost use Rattle.std.specs.Prelude.{◌≡◌, ◌≤◌, [], IfOk, IfErr, MatchResult};
ghost use Rattle.durable_catalogue.specs.declared.fault.OpenFault.TheVariants.{DeviceFault};
ghost use Rattle.checkpoint_commands.specs.PointLogs.{IsOnlyRead};
ghost use Rattle.checkpoint_commands.specs.Adding.{IsAdded, IsAddingEither, IsNotAdded, WhereFound, WhereNoPoints, WherePoints};

use crate::last_point::find_points;
use crate::taking::last_known;
use catalogue_core::Catalogue;
use commit_journal::{FoundLog, Version};
use durable_catalogue::{OpenFault, open_fault};
use outside::{Disk, WriteFault};
use restoring::write_point;
use std::alloc::Global;

/// Puts a checkpoint of a catalogue's state behind those of a log that was found and read. A fault hands the disk back.
fn add_behind<D: Disk>(
    alloc: Global,
    found: FoundLog<D>,
    core: &Catalogue,
) -> Result<D, (D, OpenFault)>
    requires staged { core.now.staged ≡ [] }
    requires newest { found.version ≡ Version.Two }
    ensures added { WherePoints found (λ before. IfOk result (λ after. IsAdded core.now.history (D.seen before) (D.seen after))) }
    ensures adding { WherePoints found (λ before. IsAddingEither D.seen core.now.history before result) }
    ensures not_added { WhereFound found (λ before. IfErr result (λ e. IsNotAdded (D.seen before) (D.seen e.0) e.1)) }
    ensures later { MatchResult result (λ after. (D.seen found.disk).faults ≤ (D.seen after).faults)
        (λ e. (D.seen found.disk).faults ≤ (D.seen e.0).faults) }
{
    match found.settle() {
        Ok(journal) => {
            let mut journal = journal;
            match write_point(alloc, core, &mut journal) {
                Ok(()) => Ok(journal.close()),
                Err(WriteFault::OutputFault) => Err((journal.close(), OpenFault::DeviceFault)),
                Err(WriteFault::NoMemory) => Err((journal.close(), OpenFault::NoMemory)),
            }
        }
        Err(failed) => {
            let (disk, _fault) = failed;
            Err((disk, OpenFault::DeviceFault))
        }
    }
}

/// Puts a checkpoint of a catalogue's state behind those of a disk's log, whole or not at all. A log that has something else, or is of
/// version 1, is left as it was. A fault hands the disk back.
pub fn add_point<D: Disk>(alloc: Global, disk: D, core: &Catalogue) -> Result<D, (D, OpenFault)>
    requires { core.now.staged ≡ [] }
    ensures added { IfOk result (λ after. IsAdded core.now.history (D.seen disk) (D.seen after)) }
    ensures adding { IsAddingEither D.seen core.now.history disk result }
    ensures not_added { IfErr result (λ e. IsNotAdded (D.seen disk) (D.seen e.0) e.1) }

    // What is no log of checkpoints is only read.
    ensures alone { WhereNoPoints (D.seen disk) (IfErr result (λ e. IsOnlyRead (e.1 ≡ DeviceFault) (D.seen disk) (D.seen e.0))) }
    ensures later { MatchResult result (λ after. (D.seen disk).faults ≤ (D.seen after).faults)
        (λ e. (D.seen disk).faults ≤ (D.seen e.0).faults) }
{
    match find_points(alloc, disk) {
        Ok((found, known)) => match last_known(found.version(), known) {
            Ok(_last) => add_behind(alloc, found, core),
            Err(fault) => Err((found.leave(), fault)),
        },
        Err(failed) => {
            let (disk, fault) = failed;
            Err((disk, open_fault(fault)))
        }
    }
}
