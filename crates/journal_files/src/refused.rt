//! Logs that are refused when they are opened.
ghost use Rattle.std.specs.Prelude.{◌≡◌, true, Some, None, ◌∷◌, []};
ghost use Rattle.outside.specs.Fault.{count_sum};
ghost use Rattle.outside.specs.Room.{AsLog, SameBut};
ghost use Rattle.journal_files.specs.Journals.{IsClosedDisk, KeepsRefused};

use durable_catalogue::OpenFault;
use outside::Room;

/// Closes a log that was refused as the file of that name, and answers why it was.
pub fn close_refused<R: Room>(room: &mut R, name: &str, refused: (R::Log, OpenFault)) -> OpenFault
    requires { (R.seen room.old).open_as name.now ≡ Some AsLog }
    ensures fault { result ≡ refused.1 }
    ensures apart { SameBut (R.seen room.old) (R.seen room.new) (name.now ∷ []) }
    ensures lefts { (R.seen room.new).lefts ≡ (R.seen room.old).lefts }
    ensures closed { (R.seen room.new).open_as name.now ≡ None }
    ensures log { (R.seen room.old).tells ≡ true → IsClosedDisk (R.Log.seen refused.0) (R.seen room.new) name.now }
    ensures counted { (R.seen room.new).log_faults name.now
        ≡ count_sum ((R.seen room.old).log_faults name.now) (R.Log.seen refused.0).faults }
    ensures keeps { KeepsRefused R.seen R.Log.seen room.old room.new name.now refused.0 refused.1 result }
{
    let (log, fault) = refused;
    room.close_log(name, log);
    fault
}
