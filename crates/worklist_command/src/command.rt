ghost use Rattle.std.specs.Prelude.{◌≡◌, ℕ, List, [], ◌∷◌, None};
ghost use Rattle.std.specs.Option.{option_copied};
ghost use Rattle.outside.specs.Room.{SameBut};
ghost use Rattle.command_words.specs.Command.{AreNames};
ghost use Rattle.console_lines.specs.Ends.{outcome};
ghost use Rattle.worklist_command.specs.Working.{MakesWorklist};

use crate::ending::end_of_both;
use crate::opening::{close_catalogued, open_catalogued};
use crate::writing::write_both;
use console_lines::{End, tell};
use journal_files::fault_of_opening;
use outside::Room;
use std::alloc::Global;

/// The command `worklist`: writes what a cataloguer works from of a journal's history into the file `list`, all lines or those of the
/// records with a code, and the page of the history into the file `page`. It tells why the journal is not opened, and want of memory.
pub fn make_worklist<R: Room>(
    alloc: Global,
    room: &mut R,
    console: &mut R::Out,
    journal: &str,
    list: &str,
    page: &str,
    code: Option<&str>,
) -> End
    requires closed { (name : List ℕ) → (R.seen room.old).open_as name ≡ None }
    requires names { AreNames (journal.now ∷ list.now ∷ page.now ∷ []) }
    ensures closed { (name : List ℕ) → (R.seen room.new).open_as name ≡ None }
    ensures apart { SameBut (R.seen room.old) (R.seen room.new) (journal.now ∷ list.now ∷ page.now ∷ []) }
    ensures ends { MakesWorklist journal.now list.now page.now (option_copied code.entry)
        (outcome R.seen R.Out.written R.Out.faults room.old room.new console.old console.new result) }
{
    let catalogued = match open_catalogued(alloc, room, journal) {
        Ok(catalogued) => catalogued,
        Err(fault) => return tell(console, fault_of_opening(fault)),
    };
    let written = write_both(
        alloc,
        room,
        list,
        page,
        &catalogued.core,
        &catalogued.brought,
        code,
    );
    close_catalogued(room, journal, catalogued);
    end_of_both(console, written)
}
