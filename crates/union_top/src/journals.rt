//! The commands that look into a journal, and write what they find.
ghost use Rattle.std.specs.Prelude.{◌≡◌, ℕ, List, None};
ghost use Rattle.command_words.specs.Asked.{held_asked, AsksFor};
ghost use Rattle.command_words.specs.declared.asked.AloneRequest.{AloneRequest};
ghost use Rattle.command_words.specs.declared.asked.Request.{Request};
ghost use Rattle.console_lines.specs.Ends.{outcome};
ghost use Rattle.union_top.specs.Commands.{CarriesOut};

use archive_commands::{Due, list_headings, write_from_journal, write_matches};
use command_words::laws::names_are_apart;
use command_words::{HeldLook, Words};
use console_lines::End;
use holdings_command::attach_holdings;
use outside::Room;
use std::alloc::Global;
use worklist_command::make_worklist;

/// Carries out the command of a look into a journal that some words ask for.
pub(crate) fn look_at_journal<R: Room>(
    alloc: Global,
    words: &Words,
    look: HeldLook<'_>,
    room: &mut R,
    console: &mut R::Out,
) -> End
    requires asks { AsksFor words.now (Request.Alone (AloneRequest.Held look)) }
    requires closed { (name : List ℕ) → (R.seen room.old).open_as name ≡ None }
    ensures { CarriesOut words.now (held_asked look.entry)
        (outcome R.seen R.Out.written R.Out.faults room.old room.new console.old console.new result) }
{
    names_are_apart(words);
    match look {
        HeldLook::Export { journal, out, code } => {
            write_from_journal(alloc, room, console, journal, out, Due::Export(code))
        }
        HeldLook::Report { journal, out } => {
            write_from_journal(alloc, room, console, journal, out, Due::Report)
        }
        HeldLook::Matches { journal, out } => write_matches(alloc, room, console, journal, out),
        HeldLook::Holdings(wanted) => attach_holdings(
            alloc,
            room,
            console,
            wanted.journal,
            wanted.out,
            wanted.rest,
            &wanted.library,
            wanted.code,
        ),
        HeldLook::Headings {
            journal,
            range,
            out,
        } => list_headings(alloc, room, console, journal, out, range),
        HeldLook::Worklist {
            journal,
            list,
            page,
            code,
        } => make_worklist(alloc, room, console, journal, list, page, code),
    }
}
