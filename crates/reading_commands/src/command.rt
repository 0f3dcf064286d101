ghost use Rattle.std.specs.Prelude.{◌≡◌, ℕ, List, [], ◌∷◌, None};
ghost use Rattle.console_lines.specs.Ends.{outcome};
ghost use Rattle.outside.specs.Room.{SameBut};
ghost use Rattle.reading_commands.specs.Looking.{Looks};

use crate::writing::write_look;
use command_words::Look;
use console_lines::{End, end_of_output, tell};
use journal_files::limits_of;
use memory_files::read_file;
use outside::Room;
use std::alloc::Global;
use unheld_journals::{fault_of_look, fault_of_reading};

/// The commands behind `reading`: what is looked for in a journal is written into the file `out`. The journal is read whole, as an input,
/// and closed before anything else is done, so that it isn't held, and nothing of it is written.
pub fn look_into<R: Room>(
    alloc: Global,
    room: &mut R,
    console: &mut R::Out,
    journal: &str,
    out: &str,
    look: Look<'_>,
) -> End
    requires closed { (name : List ℕ) → (R.seen room.old).open_as name ≡ None }
    ensures closed { (name : List ℕ) → (R.seen room.new).open_as name ≡ None }
    ensures apart { SameBut (R.seen room.old) (R.seen room.new) (out.now ∷ []) }
    ensures ends { Looks journal.now out.now look.entry
        (outcome R.seen R.Out.written R.Out.faults room.old room.new console.old console.new result) }
{
    let limits = limits_of(room);
    let bytes = match read_file(alloc, room, journal) {
        Ok(bytes) => bytes,
        Err(fault) => return tell(console, fault_of_reading(fault)),
    };
    match write_look(alloc, limits, room, out, bytes, look) {
        Ok(written) => end_of_output(console, written),
        Err(fault) => tell(console, fault_of_look(fault)),
    }
}
