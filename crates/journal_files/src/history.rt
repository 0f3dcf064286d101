//! The histories of journals in a room.
ghost use Rattle.std.specs.Prelude.{◌≡◌, ◌≢◌, true, Some, None, IfOk, IfErr, OnOk, ◌∷◌, []};
ghost use Rattle.outside.specs.Room.{AsLog, SameBut};
ghost use Rattle.commit_journal.specs.Versions.{number_of};
ghost use Rattle.durable_catalogue.specs.declared.fault.OpenFault.TheVariants.{OldVersion};
ghost use Rattle.journal_files.specs.Journals.{journal_limits, IsHistoryIn, IsClosedDisk, IsOpenLog, IsRefusedLog};
ghost use Rattle.journal_files.specs.Taking.{IsHandedOn};

use crate::journal::limits_of;
use crate::refused::close_refused;
use crate::scan::JournalScan;
use durable_catalogue::{EntryTaker, OpenFault};
use outside::Room;
use std::alloc::Global;

/// Opens the file of that name, a log of either version, and hands its entries on. A fault closes it again; any front of the entries
/// was then handed on.
#[tactic(auto, using(crate::proofs::Journals::unopened_log))]
pub fn open_history<R: Room, T: EntryTaker>(
    alloc: Global,
    room: &mut R,
    name: &str,
    taker: &mut T,
) -> Result<JournalScan<R::Log>, OpenFault>
    requires free { (R.seen room.old).open_as name.now ≡ None }
    requires none { T.has taker.old taker.old [] }
    ensures apart { SameBut (R.seen room.old) (R.seen room.new) (name.now ∷ []) }

    // All entries of the log's history were handed on; they are within the room's limits, and the log keeps them.
    ensures taken { OnOk result (IsHandedOn (T.has taker.old taker.new) (IsHistoryIn (R.seen room.old) name.now) (journal_limits (R.seen room.old))) }
    ensures log { IfOk result (λ h. IsOpenLog (R.seen room.old) (R.seen room.new) name.now (number_of h.journal.version) (R.Log.seen h.journal.disk)) }

    // A log that is refused keeps its history.
    ensures refused { IfErr result (IsRefusedLog (R.seen room.old) (R.seen room.new) name.now) }
    ensures current { IfErr result (λ fault. fault ≢ OldVersion) }
{
    let limits = limits_of(room);
    let Ok(log) = room.open_log(name) else {
        return Err(OpenFault::DeviceFault);
    };
    match JournalScan::open(alloc, log, limits, taker) {
        Ok(history) => Ok(history),
        Err(refused) => Err(close_refused(room, name, refused)),
    }
}

/// Closes a log as the file of that name.
pub fn close_history<R: Room>(room: &mut R, name: &str, history: JournalScan<R::Log>)
    requires { (R.seen room.old).open_as name.now ≡ Some AsLog }
    ensures apart { SameBut (R.seen room.old) (R.seen room.new) (name.now ∷ []) }
    ensures closed { (R.seen room.new).open_as name.now ≡ None }

    // The log and its file are what the opening left.
    ensures log { (R.seen room.old).tells ≡ true → IsClosedDisk (R.Log.seen history.journal.disk) (R.seen room.new) name.now }
{
    room.close_log(name, history.close());
}
