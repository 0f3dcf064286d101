//! The commands that look into a journal which is an input, and isn't held.
ghost use Rattle.std.specs.Prelude.{◌≡◌, ℕ, List, None};
ghost use Rattle.command_words.specs.Asked.{unheld_asked, AsksFor};
ghost use Rattle.command_words.specs.declared.asked.AloneRequest.{AloneRequest};
ghost use Rattle.command_words.specs.declared.asked.Request.{Request};
ghost use Rattle.console_lines.specs.Ends.{outcome};
ghost use Rattle.union_top.specs.Commands.{CarriesOut};

use command_words::laws::names_are_apart;
use command_words::{UnheldLook, Words};
use console_lines::End;
use outside::Room;
use reading_commands::{attach_unheld, look_into};
use std::alloc::Global;
use worklist_command::list_unheld;

/// Carries out the command of a look into a journal that isn't held, which some words ask for.
pub(crate) fn look_unheld<R: Room>(
    alloc: Global,
    words: &Words,
    asked: UnheldLook<'_>,
    room: &mut R,
    console: &mut R::Out,
) -> End
    requires asks { AsksFor words.now (Request.Alone (AloneRequest.Unheld asked)) }
    requires closed { (name : List ℕ) → (R.seen room.old).open_as name ≡ None }
    ensures { CarriesOut words.now (unheld_asked asked.entry)
        (outcome R.seen R.Out.written R.Out.faults room.old room.new console.old console.new result) }
{
    names_are_apart(words);
    match asked {
        UnheldLook::Read { look, journal, out } => {
            look_into(alloc, room, console, journal, out, look)
        }
        UnheldLook::Holdings(wanted) => attach_unheld(
            alloc,
            room,
            console,
            wanted.journal,
            wanted.out,
            wanted.rest,
            &wanted.library,
            wanted.code,
        ),
        UnheldLook::Worklist {
            journal,
            list,
            page,
            code,
        } => list_unheld(alloc, room, console, journal, list, page, code),
    }
}
