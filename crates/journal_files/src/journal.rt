//! Journals that are appended to.
ghost use Rattle.std.specs.Prelude.{◌≡◌, true, Some, None, IfOk, IfErr, OnOk, ◌∷◌, []};
ghost use Rattle.outside.specs.Room.{AsLog, SameBut};
ghost use Rattle.durable_catalogue.specs.declared.fault.OpenFault.TheVariants.{Full};
ghost use Rattle.commit_journal.specs.Log.{version_of};
ghost use Rattle.durable_catalogue.specs.Durables.{mark_of};
ghost use Rattle.durable_catalogue.specs.Views.{durable_view};
ghost use Rattle.journal_files.specs.Journals.{journal_limits, log_bytes, IsOpenedAs, IsClosedOver, HasMarkCause, IsRefusedLog};

use crate::close_refused;
use durable_catalogue::{Durable, OnClose, OpenFault};
use marc_types::Limits;
use outside::Room;
use std::alloc::Global;

/// The most that a history in this room has: 1,048,576 entries of 536,870,912 bytes in all, and where the room is large 134,217,728
/// entries of 137,438,953,472 bytes.
pub fn limits_of<R: Room>(room: &R) -> Limits
    ensures { result ≡ journal_limits (R.seen room.now) }
{
    Limits::of(room.is_large())
}

/// Opens the file of that name as a catalogue's log, within the room's limits. A fault closes it again.
#[tactic(auto, using(crate::proofs::Journals::unopened_log))]
pub fn open_journal<R: Room>(
    alloc: Global,
    room: &mut R,
    name: &str,
) -> Result<Durable<R::Log>, OpenFault>
    requires { (R.seen room.old).open_as name.now ≡ None }
    ensures apart { SameBut (R.seen room.old) (R.seen room.new) (name.now ∷ []) }
    ensures lefts { (R.seen room.new).lefts ≡ (R.seen room.old).lefts }
    ensures opened { OnOk result ((R.seen room.new).open_as name.now ≡ Some AsLog) }
    ensures catalogue { IfOk result (λ d. IsOpenedAs (R.seen room.old) name.now (durable_view d)) }

    // A log that is refused keeps its history, and is Full only where it is of version 2.
    ensures refused { IfErr result (IsRefusedLog (R.seen room.old) (R.seen room.new) name.now) }
    ensures old_first { IfErr result (λ fault. fault ≡ Full → (R.seen room.old).tells ≡ true →
        version_of (log_bytes (R.seen room.old) name.now) ≡ 2) }
{
    let limits = limits_of(room);
    let Ok(log) = room.open_log(name) else {
        return Err(OpenFault::DeviceFault);
    };
    match Durable::open(alloc, log, limits) {
        Ok(durable) => Ok(durable),
        Err(refused) => Err(close_refused(room, name, refused)),
    }
}

/// Closes a catalogue's log as the file of that name, with all that was committed.
pub fn close_journal<R: Room>(room: &mut R, name: &str, durable: Durable<R::Log>)
    requires { (R.seen room.old).open_as name.now ≡ Some AsLog }
    ensures apart { SameBut (R.seen room.old) (R.seen room.new) (name.now ∷ []) }
    ensures lefts { (R.seen room.new).lefts ≡ (R.seen room.old).lefts }
    ensures closed { (R.seen room.new).open_as name.now ≡ None }

    // The file and the closed log, where the room tells and the log told when it was opened.
    ensures log { IsClosedOver (R.Log.seen durable.before.value) (R.seen room.old) (R.seen room.new) name.now (durable_view durable) }

    // A mark has its cause in the count of faults.
    ensures cause { HasMarkCause (R.Log.seen durable.before.value) (R.seen room.old) (R.seen room.new) name.now (mark_of durable.mark) }
{
    room.close_log(name, durable.close(OnClose::Leak));
}
