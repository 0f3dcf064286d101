ghost use Rattle.std.specs.Prelude.{◌≡◌, ◌≢◌, ℕ, List, [], ◌∷◌, None};
ghost use Rattle.console_lines.specs.Ends.{outcome};
ghost use Rattle.outside.specs.Room.{SameBut};
ghost use Rattle.archive_commands.specs.Reads.{due_view, Reads};

use crate::due::Due;
use crate::writing::write_archive;
use console_lines::{End, end_of_output, tell};
use journal_files::{fault_of_opening, open_archive};
use outside::Room;
use std::alloc::Global;

/// The commands `export` and `report`: write what is due of a journal's history into the file `out`. They tell why the journal
/// is not opened, and want of memory.
pub fn write_from_journal<R: Room>(
    alloc: Global,
    room: &mut R,
    console: &mut R::Out,
    journal: &str,
    out: &str,
    due: Due<'_>,
) -> End
    requires closed { (name : List ℕ) → (R.seen room.old).open_as name ≡ None }
    requires differ { journal.now ≢ out.now }
    ensures closed { (name : List ℕ) → (R.seen room.new).open_as name ≡ None }
    ensures apart { SameBut (R.seen room.old) (R.seen room.new) (journal.now ∷ out.now ∷ []) }
    ensures ends { Reads journal.now out.now (due_view due.entry)
        (outcome R.seen R.Out.written R.Out.faults room.old room.new console.old console.new result) }
{
    let archive = match open_archive(alloc, room, journal) {
        Ok(archive) => archive,
        Err(fault) => return tell(console, fault_of_opening(fault)),
    };
    let written = write_archive(alloc, room, journal, out, due, archive);
    end_of_output(console, written)
}
