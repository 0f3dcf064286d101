ghost use Rattle.std.specs.Prelude.{◌≡◌};
ghost use Rattle.outside.specs.declared.fault.WriteFault.TheVariants.{OutputFault, NoMemory};

use std::alloc::{AllocError, AllocFailed};
use thiserror::Error;

/// The answer of a call on the outside that didn't do what it was asked for. Its cause is in the object's count of faults.
#[derive(Clone, Copy, Debug, PartialEq, Eq, Hash, Error)]
#[error("a call on the outside failed")]
pub struct Failed;

/// Why something could not be written to a [`Sink`](crate::Sink).
#[derive(Clone, Copy, Debug, PartialEq, Eq, Hash, Error)]
pub enum WriteFault {
    /// The sink failed; its count of faults rose.
    #[error("the output failed")]
    OutputFault,
    /// There was no memory for what was to be written.
    #[error("out of memory")]
    NoMemory,
}

impl From<Failed> for WriteFault {
    ghost from_gives = { λ _ fault. fault ≡ OutputFault };

    fn from(_failed: Failed) -> WriteFault {
        WriteFault::OutputFault
    }
}

impl From<AllocError> for WriteFault {
    ghost from_gives = { λ _ fault. fault ≡ NoMemory };

    fn from(_error: AllocError) -> WriteFault {
        WriteFault::NoMemory
    }
}

impl<T: Drop> From<AllocFailed<T>> for WriteFault {
    ghost from_gives = { λ _ fault. fault ≡ NoMemory };

    fn from(_refused: AllocFailed<T>) -> WriteFault {
        WriteFault::NoMemory
    }
}
