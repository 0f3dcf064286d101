//! The commands over the parts of a catalogue.
ghost use Rattle.std.specs.Prelude.{◌≡◌, ℕ, List, None};
ghost use Rattle.command_words.specs.Asked.{parts_asked, AsksFor};
ghost use Rattle.command_words.specs.declared.asked.AloneRequest.{AloneRequest};
ghost use Rattle.command_words.specs.declared.asked.Request.{Request};
ghost use Rattle.console_lines.specs.Ends.{outcome};
ghost use Rattle.union_top.specs.Commands.{CarriesOut};

use command_words::laws::{files_are_named, numbers_are_bounded};
use command_words::{PartsRequest, Words};
use console_lines::End;
use outside::Room;
use parts_commands::{join_exports, tell_totals};
use split_command::split;
use std::alloc::Global;

/// Carries out the command over the parts of a catalogue that some words ask for.
pub(crate) fn over_parts<R: Room>(
    alloc: Global,
    words: &Words,
    asked: PartsRequest<'_>,
    room: &mut R,
    console: &mut R::Out,
) -> End
    requires asks { AsksFor words.now (Request.Alone (AloneRequest.Parts asked)) }
    requires closed { (name : List ℕ) → (R.seen room.old).open_as name ≡ None }
    ensures { CarriesOut words.now (parts_asked asked.entry)
        (outcome R.seen R.Out.written R.Out.faults room.old room.new console.old console.new result) }
{
    files_are_named(words);
    numbers_are_bounded(words);
    match asked {
        PartsRequest::Totals { first, reports } => {
            tell_totals(alloc, room, console, first, reports)
        }
        PartsRequest::Join { out, exports } => join_exports(alloc, room, console, out, exports),
        PartsRequest::Split {
            count,
            prefix,
            libraries,
        } => split(alloc, room, console, count, prefix, libraries.as_slice()),
    }
}
