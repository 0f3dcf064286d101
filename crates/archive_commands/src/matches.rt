ghost use Rattle.std.specs.Prelude.{◌≡◌, ◌≢◌, ℕ, List, [], ◌∷◌, None};
ghost use Rattle.console_lines.specs.Ends.{outcome};
ghost use Rattle.outside.specs.Room.{SameBut};
ghost use Rattle.archive_commands.specs.Telling.{TellsMatches};

use crate::table::write_history;
use crate::taking::HistoryMatches;
use console_lines::{End, end_of_output, tell};
use journal_files::{fault_of_opening, open_history};
use outside::Room;
use std::alloc::Global;

/// The command `matches`: writes which of a journal's bibliographic records share a number into the file `out`. It makes no
/// catalogue. It tells why the journal is not opened, and want of memory.
pub fn write_matches<R: Room>(
    alloc: Global,
    room: &mut R,
    console: &mut R::Out,
    journal: &str,
    out: &str,
) -> End
    requires closed { (name : List ℕ) → (R.seen room.old).open_as name ≡ None }
    requires differ { journal.now ≢ out.now }
    ensures closed { (name : List ℕ) → (R.seen room.new).open_as name ≡ None }
    ensures apart { SameBut (R.seen room.old) (R.seen room.new) (journal.now ∷ out.now ∷ []) }
    ensures ends { TellsMatches journal.now out.now
        (outcome R.seen R.Out.written R.Out.faults room.old room.new console.old console.new result) }
{
    let mut taken = HistoryMatches::new(alloc);
    let history = match open_history(alloc, room, journal, &mut taken) {
        Ok(history) => history,
        Err(fault) => return tell(console, fault_of_opening(fault)),
    };
    let written = write_history(alloc, room, journal, out, &taken.table, history);
    end_of_output(console, written)
}
