ghost use Rattle.std.specs.Prelude.{◌≡◌};

use marc_types::NoMemory;
use outside::Failed;

/// Why the writing of what is joined stops.
#[derive(Clone, Copy, Debug, PartialEq, Eq)]
pub(crate) enum Stop {
    /// An export is unlike the others, at that place.
    Unlike(u64),
    Input,
    NoMemory,
    /// OUT could not be written.
    Output,
}

impl From<NoMemory> for Stop {
    ghost use Rattle.parts_commands.specs.declared.stop.Stop.{Stop};

    ghost from_gives = { λ _ stop. stop ≡ Stop.NoMemory };

    fn from(_error: NoMemory) -> Stop {
        Stop::NoMemory
    }
}

impl From<Failed> for Stop {
    ghost use Rattle.parts_commands.specs.declared.stop.Stop.{Stop};

    ghost from_gives = { λ _ stop. stop ≡ Stop.Output };

    fn from(_failed: Failed) -> Stop {
        Stop::Output
    }
}
