ghost use Rattle.std.specs.Prelude.{◌≡◌, ◌≢◌, ℕ, List, [], ◌∷◌, None};
ghost use Rattle.console_lines.specs.Ends.{outcome};
ghost use Rattle.outside.specs.Room.{SameBut};
ghost use Rattle.archive_commands.specs.Telling.{TellsList};

use crate::list::write_list;
use command_words::HeadingRange;
use console_lines::{End, end_of_output, tell};
use journal_files::{fault_of_opening, open_archive};
use outside::Room;
use std::alloc::Global;

/// The command `headings`: writes the list of a journal's headings of a kind from a typed heading on, so many at most, into the file
/// `out`. It tells why the journal is not opened, and want of memory.
pub fn list_headings<R: Room>(
    alloc: Global,
    room: &mut R,
    console: &mut R::Out,
    journal: &str,
    out: &str,
    range: HeadingRange<'_>,
) -> End
    requires closed { (name : List ℕ) → (R.seen room.old).open_as name ≡ None }
    requires differ { journal.now ≢ out.now }
    ensures closed { (name : List ℕ) → (R.seen room.new).open_as name ≡ None }
    ensures apart { SameBut (R.seen room.old) (R.seen room.new) (journal.now ∷ out.now ∷ []) }
    ensures ends { TellsList journal.now out.now range.entry
        (outcome R.seen R.Out.written R.Out.faults room.old room.new console.old console.new result) }
{
    let archive = match open_archive(alloc, room, journal) {
        Ok(archive) => archive,
        Err(fault) => return tell(console, fault_of_opening(fault)),
    };
    let written = write_list(alloc, room, journal, out, range, archive);
    end_of_output(console, written)
}
