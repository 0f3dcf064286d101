//! The command `totals`.
ghost use Rattle.std.specs.Prelude.{◌≡◌, ℕ, List, [], None};
ghost use Rattle.outside.specs.Room.{SameBut};
ghost use Rattle.catalogue_parts.specs.Joined.{line_of_totals};
ghost use Rattle.console_lines.specs.Ends.{outcome};
ghost use Rattle.parts_commands.specs.Reading.{numbers_of};
ghost use Rattle.parts_commands.specs.Telling.{IsLineTold, TellsTotals};

use crate::line::totals_line;
use crate::reports::{Stopped, join_reports};
use crate::sums::Sums;
use console_lines::{End, Fault, Unwritten, tell, tell_difference};
use marc_types::{NoMemory, Text};
use outside::{Room, Sink};
use std::alloc::Global;

/// Tells the line of the whole.
fn tell_sums<K: Sink>(alloc: Global, console: &mut K, sums: &Sums) -> End
    ensures { IsLineTold (K.written console.old) (K.written console.new) (K.faults console.old) (K.faults console.new)
        (line_of_totals (numbers_of sums.now)) result }
{
    let line = match totals_line(alloc, sums) {
        Ok(line) => line,
        Err(NoMemory) => return tell(console, Fault::Memory),
    };
    match console.write_all(line.as_slice()) {
        Ok(()) => End::Done,
        Err(_) => End::Unwritten(Unwritten::Console),
    }
}

/// The command `totals`: tells the line of a whole, from the report of its authorities alone and those of its parts. It tells an input's
/// fault, want of memory, and which report can't be joined.
pub fn tell_totals<R: Room>(
    alloc: Global,
    room: &mut R,
    console: &mut R::Out,
    first: &str,
    reports: &[Text],
) -> End
    requires closed { (name : List ℕ) → (R.seen room.old).open_as name ≡ None }
    ensures closed { (name : List ℕ) → (R.seen room.new).open_as name ≡ None }
    ensures apart { SameBut (R.seen room.old) (R.seen room.new) [] }
    ensures ends { TellsTotals first.now reports.now
        (outcome R.seen R.Out.written R.Out.faults room.old room.new console.old console.new result) }
{
    match join_reports(alloc, room, first, reports) {
        Ok(sums) => tell_sums(alloc, console, &sums),
        Err(Stopped::Fault(fault)) => tell(console, fault),
        Err(Stopped::Differ { place, name }) => tell_difference(console, place, name),
    }
}
