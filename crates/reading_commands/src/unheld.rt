ghost use Rattle.std.specs.Prelude.{◌≡◌, ℕ, List, [], ◌∷◌, None};
ghost use Rattle.std.specs.Option.{option_copied};
ghost use Rattle.command_words.specs.Command.{AreNames};
ghost use Rattle.console_lines.specs.Ends.{outcome};
ghost use Rattle.outside.specs.Room.{SameBut};
ghost use Rattle.reading_commands.specs.Unheld.{AttachesUnheld};

use command_words::Library;
use console_lines::{End, end_of_outputs, tell};
use durable_catalogue::OnClose;
use holdings_command::{prepare, write_both};
use journal_files::limits_of;
use memory_files::read_file;
use outside::Room;
use std::alloc::Global;
use unheld_journals::{catalogue_of, fault_of_look, fault_of_reading};

/// The command `reading holdings`: writes the records of a journal, each with its holdings of a file behind it, into the file `out`: all
/// records, or those under keys with that code; and the holdings whose record isn't kept into the file `rest`. The journal is read whole,
/// as an input, and closed before anything else is done, so that it isn't held, and nothing of it is written.
pub fn attach_unheld<R: Room>(
    alloc: Global,
    room: &mut R,
    console: &mut R::Out,
    journal: &str,
    out: &str,
    rest: &str,
    library: &Library,
    code: Option<&str>,
) -> End
    requires closed { (name : List ℕ) → (R.seen room.old).open_as name ≡ None }
    requires names { AreNames (out.now ∷ rest.now ∷ []) }
    ensures closed { (name : List ℕ) → (R.seen room.new).open_as name ≡ None }
    ensures apart { SameBut (R.seen room.old) (R.seen room.new) (out.now ∷ rest.now ∷ []) }
    ensures ends { AttachesUnheld journal.now out.now rest.now library.now (option_copied code.entry)
        (outcome R.seen R.Out.written R.Out.faults room.old room.new console.old console.new result) }
{
    let limits = limits_of(room);
    let bytes = match read_file(alloc, room, journal) {
        Ok(bytes) => bytes,
        Err(fault) => return tell(console, fault_of_reading(fault)),
    };
    let archive = match catalogue_of(alloc, limits, bytes) {
        Ok(archive) => archive,
        Err(fault) => return tell(console, fault_of_look(fault)),
    };
    let core = archive.core();
    let ready = match prepare(alloc, room, library, core) {
        Ok(ready) => ready,
        Err(fault) => {
            let _disk = archive.close(OnClose::Leak);
            return tell(console, fault);
        }
    };
    let written = write_both(alloc, room, out, rest, core, &ready.shelf, code);
    let _disk = archive.close(OnClose::Leak);
    end_of_outputs(console, written, ready.text.as_str(), ready.refused)
}
