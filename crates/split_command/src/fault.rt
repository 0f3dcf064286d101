//! Why a split ends before its end.
ghost use Rattle.std.specs.Prelude.{◌≡◌};
ghost use Rattle.split_command.specs.declared.fault.SplitFault.TheVariants as fault;

use marc_types::NoMemory;
use std::alloc::{AllocError, AllocFailed};

/// Why a split ends before its end.
#[derive(Clone, Copy, Debug, PartialEq, Eq)]
pub enum SplitFault {
    /// An input failed.
    Input,
    /// An output could not be written.
    Output,
    /// Memory ran out.
    Memory,
}

impl From<NoMemory> for SplitFault {
    ghost from_gives = { λ _ why. why ≡ fault.Memory };

    fn from(_error: NoMemory) -> SplitFault {
        SplitFault::Memory
    }
}

impl From<AllocError> for SplitFault {
    ghost from_gives = { λ _ why. why ≡ fault.Memory };

    fn from(_error: AllocError) -> SplitFault {
        SplitFault::Memory
    }
}

impl<T: Drop> From<AllocFailed<T>> for SplitFault {
    ghost from_gives = { λ _ why. why ≡ fault.Memory };

    fn from(_failed: AllocFailed<T>) -> SplitFault {
        SplitFault::Memory
    }
}
