//! What takes frames as they are read.
ghost use Rattle.std.specs.Prelude.{◌≡◌, ◌∷◌, ◌++◌, [], List, OnOk};
ghost use Rattle.commit_journal.specs.declared.frame.Frame.{Frame as AnyFrame};

use crate::Frame;
use std::alloc::{AllocError, Global};

/// What takes the frames of a log one behind the other.
pub trait FrameTaker {
    /// What it is, begun as the first one, when it has taken these frames.
    ghost has: { Self → Self → List AnyFrame → Type 0 };

    /// Takes the next frame, or ends the reading for want of memory.
    fn take(&mut self, alloc: Global, frame: Frame) -> Result<(), AllocError>
        ensures taken { OnOk result ((begun : Self) (before : List AnyFrame) → has begun self.old before → has begun self.new (before ++ frame ∷ [])) };
}

/// Frames that are kept.
#[derive(Debug, Drop)]
pub(crate) struct KeptFrames {
    pub items: Vec<Frame>,
}

impl FrameTaker for KeptFrames {
    ghost use Rattle.std.specs.Prelude.{◌≡◌};

    ghost has = { λ begun kept frames. kept.items.items ≡ frames };

    fn take(&mut self, _alloc: Global, frame: Frame) -> Result<(), AllocError> {
        match self.items.push(frame) {
            Ok(()) => Ok(()),
            Err(_refused) => Err(AllocError),
        }
    }
}
