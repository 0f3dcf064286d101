//! Journals that are only read.
ghost use Rattle.std.specs.Prelude.{◌≡◌, ◌≢◌, true, Some, None, IfOk, IfErr, ◌∷◌, []};
ghost use Rattle.outside.specs.Room.{AsLog, SameBut};
ghost use Rattle.commit_journal.specs.Versions.{number_of};
ghost use Rattle.durable_catalogue.specs.declared.fault.OpenFault.TheVariants.{OldVersion};
ghost use Rattle.durable_catalogue.specs.Logs.{HasHistory};
ghost use Rattle.entry_record.specs.History.{IsWithin};
ghost use Rattle.journal_files.specs.Journals.{journal_limits, log_bytes, IsClosedDisk, IsOpenLog, IsRefusedLog};

use crate::{close_refused, limits_of};
use durable_catalogue::{OnClose, OpenFault, RecoveredReadOnly};
use outside::Room;
use std::alloc::Global;

/// Opens the file of that name to read its history, of either version. A fault closes it again.
#[tactic(auto, using(crate::proofs::Journals::unopened_log))]
pub fn open_archive<R: Room>(
    alloc: Global,
    room: &mut R,
    name: &str,
) -> Result<RecoveredReadOnly<R::Log>, OpenFault>
    requires { (R.seen room.old).open_as name.now ≡ None }
    ensures apart { SameBut (R.seen room.old) (R.seen room.new) (name.now ∷ []) }

    // The catalogue has the log's history, within the room's limits, and the log keeps it.
    ensures log { IfOk result (λ a. IsOpenLog (R.seen room.old) (R.seen room.new) name.now (number_of a.journal.version) (R.Log.seen a.journal.disk)) }
    ensures history { IfOk result (λ a. (R.seen room.old).tells ≡ true → HasHistory a.core.history (log_bytes (R.seen room.old) name.now)) }
    ensures within { IfOk result (λ a. IsWithin (journal_limits (R.seen room.old)) a.core.history) }

    // A log that is refused keeps its history.
    ensures refused { IfErr result (IsRefusedLog (R.seen room.old) (R.seen room.new) name.now) }
    ensures current { IfErr result (λ fault. fault ≢ OldVersion) }
{
    let limits = limits_of(room);
    let Ok(log) = room.open_log(name) else {
        return Err(OpenFault::DeviceFault);
    };
    match RecoveredReadOnly::open(alloc, log, limits) {
        Ok(archive) => Ok(archive),
        Err(refused) => Err(close_refused(room, name, refused)),
    }
}

/// Closes an archive's log as the file of that name.
pub fn close_archive<R: Room>(room: &mut R, name: &str, archive: RecoveredReadOnly<R::Log>)
    requires { (R.seen room.old).open_as name.now ≡ Some AsLog }
    ensures apart { SameBut (R.seen room.old) (R.seen room.new) (name.now ∷ []) }
    ensures closed { (R.seen room.new).open_as name.now ≡ None }

    // The log and its file are what the archive left.
    ensures log { (R.seen room.old).tells ≡ true → IsClosedDisk (R.Log.seen archive.journal.disk) (R.seen room.new) name.now }
{
    room.close_log(name, archive.close(OnClose::Leak));
}
