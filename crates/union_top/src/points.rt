//! The commands over a journal and a log of its checkpoints.
ghost use Rattle.std.specs.Prelude.{◌≡◌, ℕ, List, None};
ghost use Rattle.command_words.specs.Asked.{point_asked, AsksFor};
ghost use Rattle.command_words.specs.declared.asked.AloneRequest.{AloneRequest};
ghost use Rattle.command_words.specs.declared.asked.Request.{Request};
ghost use Rattle.console_lines.specs.Ends.{outcome};
ghost use Rattle.union_top.specs.Commands.{CarriesOut};

use checkpoint_commands::{export_quickly, put_checkpoint};
use command_words::laws::names_are_apart;
use command_words::{PointRequest, Words};
use console_lines::End;
use outside::Room;
use point_verification::verify_point;
use std::alloc::Global;

/// Carries out the command over a log of checkpoints that some words ask for.
pub(crate) fn over_point<R: Room>(
    alloc: Global,
    words: &Words,
    asked: PointRequest<'_>,
    room: &mut R,
    console: &mut R::Out,
) -> End
    requires asks { AsksFor words.now (Request.Alone (AloneRequest.Point asked)) }
    requires closed { (name : List ℕ) → (R.seen room.old).open_as name ≡ None }
    ensures { CarriesOut words.now (point_asked asked.entry)
        (outcome R.seen R.Out.written R.Out.faults room.old room.new console.old console.new result) }
{
    names_are_apart(words);
    match asked {
        PointRequest::Verify { journal, point } => {
            verify_point(alloc, room, console, journal, point)
        }
        PointRequest::Checkpoint { journal, point } => {
            put_checkpoint(alloc, room, console, journal, point)
        }
        PointRequest::Quick {
            journal,
            point,
            out,
        } => export_quickly(alloc, room, console, journal, point, out, None),
        PointRequest::QuickReport {
            journal,
            point,
            out,
            report,
        } => export_quickly(alloc, room, console, journal, point, out, Some(report)),
    }
}
