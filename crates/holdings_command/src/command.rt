ghost use Rattle.std.specs.Prelude.{◌≡◌, ℕ, List, [], ◌∷◌, None};
ghost use Rattle.std.specs.Option.{option_copied};
ghost use Rattle.outside.specs.Room.{SameBut, IsNoneOf};
ghost use Rattle.command_words.specs.Command.{AreNames};
ghost use Rattle.console_lines.specs.Ends.{outcome};
ghost use Rattle.holdings_command.specs.Attaching.{AttachesHoldings};

use crate::ready::prepare;
use crate::writing::write_both;
use command_words::Library;
use console_lines::{End, end_of_outputs, tell};
use journal_files::{close_archive, fault_of_opening, open_archive};
use outside::Room;
use std::alloc::Global;

/// The command `holdings`: writes a journal's records, each with its holdings of a file behind it, into the file `out`: all
/// records, or those under keys with that code; and the holdings whose record isn't kept into the file `rest`. It tells why the
/// journal is not opened, an input's fault, and want of memory, before it begins either.
pub fn attach_holdings<R: Room>(
    alloc: Global,
    room: &mut R,
    console: &mut R::Out,
    journal: &str,
    out: &str,
    rest: &str,
    library: &Library,
    code: Option<&str>,
) -> End
    requires closed { (name : List ℕ) → (R.seen room.old).open_as name ≡ None }
    requires names { AreNames (journal.now ∷ out.now ∷ rest.now ∷ []) }
    requires file { IsNoneOf library.now.file (journal.now ∷ out.now ∷ rest.now ∷ []) }
    ensures closed { (name : List ℕ) → (R.seen room.new).open_as name ≡ None }
    ensures apart { SameBut (R.seen room.old) (R.seen room.new) (journal.now ∷ out.now ∷ rest.now ∷ []) }
    ensures ends { AttachesHoldings journal.now out.now rest.now library.now (option_copied code.entry)
        (outcome R.seen R.Out.written R.Out.faults room.old room.new console.old console.new result) }
{
    let archive = match open_archive(alloc, room, journal) {
        Ok(archive) => archive,
        Err(fault) => return tell(console, fault_of_opening(fault)),
    };
    let core = archive.core();
    let ready = match prepare(alloc, room, library, core) {
        Ok(ready) => ready,
        Err(fault) => {
            close_archive(room, journal, archive);
            return tell(console, fault);
        }
    };
    let written = write_both(alloc, room, out, rest, core, &ready.shelf, code);
    close_archive(room, journal, archive);
    end_of_outputs(console, written, ready.text.as_str(), ready.refused)
}
