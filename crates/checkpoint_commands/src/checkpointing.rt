ghost use Rattle.std.specs.Prelude.{◌≡◌, ◌≢◌, ℕ, List, [], ◌∷◌, None};
ghost use Rattle.console_lines.specs.Ends.{outcome};
ghost use Rattle.outside.specs.Room.{SameBut};
ghost use Rattle.checkpoint_commands.specs.Checkpoints.{Checkpoints};

use crate::point_file::add_to_file;
use console_lines::{End, Unwritten, tell, write_checkpoint};
use journal_files::{close_archive, fault_of_opening, open_archive};
use outside::Room;
use std::alloc::Global;

/// The command `checkpoint`: puts a checkpoint of a journal's catalogue behind those of the log `point`, and tells how many entries the
/// journal has. It tells why it doesn't. The journal stays open meanwhile, and nothing is written to it.
pub fn put_checkpoint<R: Room>(
    alloc: Global,
    room: &mut R,
    console: &mut R::Out,
    journal: &str,
    point: &str,
) -> End
    requires closed { (name : List ℕ) → (R.seen room.old).open_as name ≡ None }
    requires differ { journal.now ≢ point.now }
    ensures closed { (name : List ℕ) → (R.seen room.new).open_as name ≡ None }
    ensures apart { SameBut (R.seen room.old) (R.seen room.new) (journal.now ∷ point.now ∷ []) }
    ensures ends { Checkpoints journal.now point.now
        (outcome R.seen R.Out.written R.Out.faults room.old room.new console.old console.new result) }
{
    let archive = match open_archive(alloc, room, journal) {
        Ok(archive) => archive,
        Err(fault) => return tell(console, fault_of_opening(fault)),
    };
    let added = add_to_file(alloc, room, point, archive.core());
    let count = archive.core().history_len();
    close_archive(room, journal, archive);
    match added {
        Ok(()) => match write_checkpoint(console, count) {
            Ok(()) => End::Done,
            Err(_) => End::Unwritten(Unwritten::Console),
        },
        Err(fault) => tell(console, fault_of_opening(fault)),
    }
}
