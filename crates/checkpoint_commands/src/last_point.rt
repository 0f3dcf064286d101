//! The checkpoints of a log, found, and the last whole one.
ghost use Rattle.std.specs.Prelude.{◌≡◌, List, ℕ, Some, IfOk, IfErr, IfSome, IsErrOf};
ghost use Rattle.outside.specs.Fault.{Rose};
ghost use Rattle.commit_journal.specs.Begun.{IsUnfound};
ghost use Rattle.durable_catalogue.specs.declared.fault.OpenFault.TheVariants.{DeviceFault};
ghost use Rattle.restoring.specs.Resuming.{IsInOrder};
ghost use Rattle.checkpoint_commands.specs.PointLogs.{IsOnlyRead, IsPointLog, IsUntaken};
ghost use Rattle.checkpoint_commands.specs.Taking.{FindsPoints};

use crate::taking::{Known, PointTaker, last_known};
use checkpoint::Point;
use commit_journal::{BegunLog, FoundLog, JournalFault, find_each};
use durable_catalogue::{OpenFault, open_fault};
use outside::Disk;
use restoring::laws::a_found_checkpoint_is_in_order;
use std::alloc::Global;

/// Finds a log of checkpoints, and tells what is known of its frames. It writes nothing. A frame is let go before the next is read. A fault
/// hands the disk back.
pub(crate) fn find_points<D: Disk>(
    alloc: Global,
    disk: D,
) -> Result<(FoundLog<D>, Known), (D, JournalFault)>
    ensures found { IfOk result (λ r. FindsPoints r.1 r.0 (D.seen disk)) }
    ensures unfound { IfErr result (λ e. IsUnfound (D.seen disk) (D.seen e.0) e.1) }
{
    match BegunLog::begin(alloc, disk) {
        Ok(begun) => {
            let mut taker = PointTaker::new();
            match begun.find(alloc, &mut taker) {
                Ok(found) => Ok((found, taker.known)),
                Err(unfound) => Err(unfound),
            }
        }
        Err(unfound) => Err(unfound),
    }
}

/// Reads the last whole checkpoint of a log, and writes nothing. A frame is let go before the next is read.
pub fn read_last<D: Disk>(alloc: Global, disk: D) -> (D, Result<Option<Point>, OpenFault>)
    ensures read { IsOnlyRead (IsErrOf result.1 DeviceFault) (D.seen disk) (D.seen result.0) }
    ensures last { IfOk result.1 (λ last. (log : List ℕ) → (D.seen disk).content ≡ Some log → IsPointLog last log) }
    ensures order { IfOk result.1 (λ last. IfSome last IsInOrder) }
    ensures untaken { IfErr result.1 (λ why. (log : List ℕ) → (D.seen disk).content ≡ Some log → IsUntaken log why) }
    ensures cause { IsErrOf result.1 DeviceFault → Rose (D.seen disk).faults (D.seen result.0).faults }
{
    a_found_checkpoint_is_in_order();
    let mut disk = disk;
    let mut taker = PointTaker::new();
    match find_each(alloc, &mut disk, &mut taker) {
        Ok(end) => (disk, last_known(end.version, taker.known)),
        Err(fault) => (disk, Err(open_fault(fault))),
    }
}
