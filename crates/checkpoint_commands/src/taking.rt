//! The parts of a log of checkpoints, which are taken frame by frame.
ghost use Rattle.std.specs.Prelude.{◌≡◌, ◌∷◌, ◌++◌, [], List, OnOk, IfOk, IfErr};
ghost use Rattle.commit_journal.specs.declared.frame.Frame.{Frame as AnyFrame};
ghost use Rattle.commit_journal.specs.Versions.{number_of};
ghost use Rattle.checkpoint.specs.Points.{IsPointOf};
ghost use Rattle.checkpoint_commands.specs.PointLogs.{AreUntaken};
ghost use Rattle.checkpoint_commands.specs.Taking.{IsKnown};

use checkpoint::{PartFault, Point, SoFar, read_part};
use commit_journal::{Frame, FrameTaker, Version};
use durable_catalogue::OpenFault;
use marc_types::NoMemory;
use std::alloc::{AllocError, Global};
use std::mem;

/// What is known of the frames of a log so far.
#[derive(Debug, Drop)]
pub(crate) enum Known {
    /// Each is a part of a checkpoint.
    Parts(SoFar),
    /// The first that is no part has its gate there.
    BadAt(u64),
}

/// What one more frame makes of it. Its payload is let go.
#[tactic(auto, using(crate::proofs::Taken::one_part, crate::proofs::Taken::one_bad, crate::proofs::Taken::still_bad))]
fn known_behind(alloc: Global, known: Known, frame: &Frame) -> Result<Known, NoMemory>
    ensures { IfOk result (λ now. (before : List AnyFrame) → IsKnown before known → IsKnown (before ++ frame.now ∷ []) now) }
{
    let so_far = match known {
        Known::Parts(so_far) => so_far,
        Known::BadAt(gate) => return Ok(Known::BadAt(gate)),
    };
    match read_part(alloc, frame.payload.as_slice()) {
        Ok(part) => Ok(Known::Parts(so_far.read_on(alloc, part)?)),
        Err(PartFault::BadPart) => Ok(Known::BadAt(frame.gate)),
        Err(PartFault::NoMemory) => Err(NoMemory),
    }
}

/// The last whole checkpoint of a log of that version, of whose frames that is known. A payload that is no part of one comes before an
/// old version.
pub(crate) fn last_known(version: Version, known: Known) -> Result<Option<Point>, OpenFault>
    ensures last { IfOk result (λ last. (frames : List AnyFrame) → IsKnown frames known → IsPointOf frames last) }
    ensures newest { OnOk result (version ≡ Version.Two) }
    ensures untaken { IfErr result (λ why. (frames : List AnyFrame) → IsKnown frames known → AreUntaken (number_of version) frames why) }
{
    let so_far = match known {
        Known::Parts(so_far) => so_far,
        Known::BadAt(gate) => return Err(OpenFault::NotAJournal(gate)),
    };
    match version {
        Version::One => Err(OpenFault::OldVersion),
        Version::Two => Ok(so_far.last),
    }
}

/// Takes the frames of a log of checkpoints, and keeps no payload.
#[derive(Drop)]
pub(crate) struct PointTaker {
    pub(crate) known: Known,
}

impl PointTaker {
    /// No frame is taken yet.
    #[tactic(auto, using(crate::proofs::Taken::none_taken))]
    pub(crate) fn new() -> PointTaker
        ensures { IsKnown [] result.known }
    {
        PointTaker {
            known: Known::Parts(SoFar::new()),
        }
    }
}

impl FrameTaker for PointTaker {
    ghost use Rattle.checkpoint_commands.specs.Taking.{IsKnown};

    ghost has = { λ begun taker frames. IsKnown frames taker.known };

    fn take(&mut self, alloc: Global, frame: Frame) -> Result<(), AllocError> {
        let before = mem::replace(&mut self.known, Known::BadAt(0));
        match known_behind(alloc, before, &frame) {
            Ok(known) => {
                self.known = known;
                Ok(())
            }
            Err(NoMemory) => Err(AllocError),
        }
    }
}
