//! The last whole checkpoint of a log.
ghost use Rattle.std.specs.Prelude.{IfOk, IfErr};
ghost use Rattle.checkpoint.specs.Points.{IsPointOf, IsUnreadFrame, IsUnread};
ghost use Rattle.checkpoint.specs.Parts.{IsPartOf};

use crate::{Part, PartFault, Point, PointFault, SoFar, read_part};
use commit_journal::{Frame, Frames};
use std::alloc::Global;

fn read_frame(alloc: Global, frame: &Frame) -> Result<Part, PointFault>
    ensures part { IfOk result (IsPartOf frame.now.payload) }
    ensures unread { IfErr result (IsUnreadFrame frame.now) }
{
    match read_part(alloc, frame.payload.as_slice()) {
        Ok(part) => Ok(part),
        Err(PartFault::BadPart) => Err(PointFault::BadPoint(frame.gate)),
        Err(PartFault::NoMemory) => Err(PointFault::NoMemory),
    }
}

/// The last whole checkpoint of these frames. A frame is let go before the next is read.
fn read_frames(alloc: Global, frames: Vec<Frame>) -> Result<Option<Point>, PointFault>
    ensures point { IfOk result (IsPointOf frames.items) }
    ensures unread { IfErr result (IsUnread frames.items) }
{
    let mut so_far = SoFar::new();
    for frame in frames {
        let part = read_frame(alloc, &frame)?;
        let known = so_far.read_on(alloc, part)?;
        so_far = known;
    }
    Ok(so_far.last)
}

/// The last whole checkpoint of a log of these frames, or none. `BadPoint` comes exactly where a payload is of none of the three
/// sorts, with the gate of the first such one.
pub fn read_point(alloc: Global, frames: Frames) -> Result<Option<Point>, PointFault>
    ensures point { IfOk result (IsPointOf frames) }
    ensures unread { IfErr result (IsUnread frames) }
{
    read_frames(alloc, frames.into_vec())
}
