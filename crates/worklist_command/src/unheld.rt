ghost use Rattle.std.specs.Prelude.{◌≡◌, ◌≢◌, ℕ, List, [], ◌∷◌, None};
ghost use Rattle.std.specs.Option.{option_copied};
ghost use Rattle.outside.specs.Room.{SameBut};
ghost use Rattle.console_lines.specs.Ends.{outcome};
ghost use Rattle.worklist_command.specs.Unheld.{ListsUnheld};

use crate::ending::end_of_both;
use crate::opening::read_catalogued;
use crate::writing::write_both;
use console_lines::{End, tell};
use journal_files::limits_of;
use memory_files::read_file;
use outside::Room;
use std::alloc::Global;
use unheld_journals::{fault_of_look, fault_of_reading};

/// The command `reading worklist`: what `make_worklist` writes, of a journal that is read whole, as an input, and closed before anything
/// else is done, so that it isn't held, and nothing of it is written.
pub fn list_unheld<R: Room>(
    alloc: Global,
    room: &mut R,
    console: &mut R::Out,
    journal: &str,
    list: &str,
    page: &str,
    code: Option<&str>,
) -> End
    requires closed { (name : List ℕ) → (R.seen room.old).open_as name ≡ None }
    requires differ { list.now ≢ page.now }
    ensures closed { (name : List ℕ) → (R.seen room.new).open_as name ≡ None }
    ensures apart { SameBut (R.seen room.old) (R.seen room.new) (list.now ∷ page.now ∷ []) }
    ensures ends { ListsUnheld journal.now list.now page.now (option_copied code.entry)
        (outcome R.seen R.Out.written R.Out.faults room.old room.new console.old console.new result) }
{
    let limits = limits_of(room);
    let bytes = match read_file(alloc, room, journal) {
        Ok(bytes) => bytes,
        Err(fault) => return tell(console, fault_of_reading(fault)),
    };
    let catalogued = match read_catalogued(alloc, limits, bytes) {
        Ok(catalogued) => catalogued,
        Err(fault) => return tell(console, fault_of_look(fault)),
    };
    let written = write_both(
        alloc,
        room,
        list,
        page,
        &catalogued.core,
        &catalogued.brought,
        code,
    );
    end_of_both(console, written)
}
