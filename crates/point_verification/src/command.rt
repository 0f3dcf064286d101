ghost use Rattle.std.specs.Prelude.{◌≡◌, ℕ, List, [], None};
ghost use Rattle.console_lines.specs.Ends.{outcome};
ghost use Rattle.outside.specs.Room.{SameBut};
ghost use Rattle.point_verification.specs.Verifying.{VerifiesPoint};

use crate::judging::judged;
use console_lines::{End, Unwritten, tell, write_resumed};
use journal_files::limits_of;
use memory_files::read_file;
use outside::Room;
use std::alloc::Global;
use unheld_journals::fault_of_reading;

/// The command `verify` over a journal and a log of checkpoints: tells how many entries the last checkpoint holds, and of how many, where
/// it is the journal's own, and else that it is of another history. The journal's history is judged by the room's limits. Both files are
/// read whole as inputs, the log of checkpoints first; no file changes.
pub fn verify_point<R: Room>(
    alloc: Global,
    room: &mut R,
    console: &mut R::Out,
    journal: &str,
    point: &str,
) -> End
    requires closed { (name : List ℕ) → (R.seen room.old).open_as name ≡ None }
    ensures closed { (name : List ℕ) → (R.seen room.new).open_as name ≡ None }
    ensures apart { SameBut (R.seen room.old) (R.seen room.new) [] }
    ensures ends { VerifiesPoint journal.now point.now
        (outcome R.seen R.Out.written R.Out.faults room.old room.new console.old console.new result) }
{
    let limits = limits_of(room);
    // A journal only grows: read behind it, the journal has what a checkpoint holds that is made meanwhile.
    let log = match read_file(alloc, room, point) {
        Ok(bytes) => bytes,
        Err(fault) => return tell(console, fault_of_reading(fault)),
    };
    let history = match read_file(alloc, room, journal) {
        Ok(bytes) => bytes,
        Err(fault) => return tell(console, fault_of_reading(fault)),
    };
    match judged(alloc, limits, history, log) {
        Ok((held, count)) => match write_resumed(console, held, count) {
            Ok(()) => End::Done,
            Err(_) => End::Unwritten(Unwritten::Console),
        },
        Err(fault) => tell(console, fault),
    }
}
