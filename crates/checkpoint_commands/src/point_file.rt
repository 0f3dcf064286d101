//! Logs of checkpoints in a room.
ghost use Rattle.std.specs.Prelude.{◌≡◌, [], ◌∷◌, true, Option, None, IfOk, IfErr, IfSome, OnOk, IsErrOf};
ghost use Rattle.outside.specs.Room.{SameBut};
ghost use Rattle.durable_catalogue.specs.declared.fault.OpenFault.TheVariants.{DeviceFault};
ghost use Rattle.journal_files.specs.Journals.{log_bytes, KeepsHistory};
ghost use Rattle.checkpoint.specs.declared.point.Point.{Point as AnyPoint};
ghost use Rattle.restoring.specs.Resuming.{IsInOrder};
ghost use Rattle.checkpoint_commands.specs.PointLogs.{IsPointLog};
ghost use Rattle.checkpoint_commands.specs.Refusals.{IsPointRefused};
ghost use Rattle.checkpoint_commands.specs.Rooms.{PutsBehind, IsPutBehind};

use crate::adding::add_point;
use crate::last_point::read_last;
use catalogue_core::Catalogue;
use checkpoint::Point;
use durable_catalogue::OpenFault;
use outside::Room;
use std::alloc::Global;

/// Puts a checkpoint of a catalogue's state behind those of the file of that name.
pub(crate) fn add_to_file<R: Room>(
    alloc: Global,
    room: &mut R,
    name: &str,
    core: &Catalogue,
) -> Result<(), OpenFault>
    requires free { (R.seen room.old).open_as name.now ≡ None }
    requires staged { core.now.staged ≡ [] }
    ensures apart { SameBut (R.seen room.old) (R.seen room.new) (name.now ∷ []) }
    ensures closed { (R.seen room.new).open_as name.now ≡ None }
    ensures puts { (R.seen room.old).tells ≡ true → PutsBehind core.now.history (R.seen room.old) (R.seen room.new) name.now }
    ensures alone { (R.seen room.old).tells ≡ true → ((last : Option AnyPoint) → IsPointLog last (log_bytes (R.seen room.old) name.now) → ⊥)
        → KeepsHistory (IsErrOf result DeviceFault) (R.seen room.old) (R.seen room.new) name.now }
    ensures put { OnOk result ((R.seen room.old).tells ≡ true → IsPutBehind core.now.history (R.seen room.old) (R.seen room.new) name.now) }
    ensures refused { IfErr result (IsPointRefused (R.seen room.old) (R.seen room.new) name.now) }
{
    let Ok(log) = room.open_log(name) else {
        return Err(OpenFault::DeviceFault);
    };
    match add_point(alloc, log, core) {
        Ok(log) => {
            room.close_log(name, log);
            Ok(())
        }
        Err(failed) => {
            let (log, fault) = failed;
            room.close_log(name, log);
            Err(fault)
        }
    }
}

/// Reads the last whole checkpoint of the file of that name, and writes nothing to it.
pub(crate) fn last_of_file<R: Room>(
    alloc: Global,
    room: &mut R,
    name: &str,
) -> Result<Option<Point>, OpenFault>
    requires free { (R.seen room.old).open_as name.now ≡ None }
    ensures apart { SameBut (R.seen room.old) (R.seen room.new) (name.now ∷ []) }
    ensures closed { (R.seen room.new).open_as name.now ≡ None }
    ensures bytes { (R.seen room.old).tells ≡ true → log_bytes (R.seen room.new) name.now ≡ log_bytes (R.seen room.old) name.now }
    ensures keeps { (R.seen room.old).tells ≡ true → KeepsHistory (IsErrOf result DeviceFault) (R.seen room.old) (R.seen room.new) name.now }
    ensures last { IfOk result (λ last. (R.seen room.old).tells ≡ true → IsPointLog last (log_bytes (R.seen room.old) name.now)) }
    ensures order { IfOk result (λ last. IfSome last IsInOrder) }
    ensures refused { IfErr result (IsPointRefused (R.seen room.old) (R.seen room.new) name.now) }
{
    let Ok(log) = room.open_log(name) else {
        return Err(OpenFault::DeviceFault);
    };
    let (log, last) = read_last(alloc, log);
    room.close_log(name, log);
    last
}
