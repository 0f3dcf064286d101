ghost use Rattle.std.specs.Prelude.{◌≡◌};

use marc_types::NoMemory;
use std::alloc::{AllocError, AllocFailed};
use std::error::Error;
use std::fmt;

/// Why a payload is no part of a checkpoint.
#[derive(Clone, Copy, Debug, PartialEq, Eq)]
pub enum PartFault {
    /// It is of none of the three sorts.
    BadPart,
    NoMemory,
}

impl fmt::Display for PartFault {
    fn fmt<W: fmt::Write>(&self, f: &mut fmt::Formatter<W>) -> fmt::Result {
        f.write_str(match self {
            PartFault::BadPart => "no part of a checkpoint",
            PartFault::NoMemory => "out of memory",
        })
    }
}

impl Error for PartFault {}

impl From<NoMemory> for PartFault {
    ghost use Rattle.checkpoint.specs.declared.fault.PartFault.{PartFault};

    ghost from_gives = { λ _ fault. fault ≡ PartFault.NoMemory };

    fn from(_error: NoMemory) -> PartFault {
        PartFault::NoMemory
    }
}

impl From<AllocError> for PartFault {
    ghost use Rattle.checkpoint.specs.declared.fault.PartFault.{PartFault};

    ghost from_gives = { λ _ fault. fault ≡ PartFault.NoMemory };

    fn from(_error: AllocError) -> PartFault {
        PartFault::NoMemory
    }
}

impl<T: Drop> From<AllocFailed<T>> for PartFault {
    ghost use Rattle.checkpoint.specs.declared.fault.PartFault.{PartFault};

    ghost from_gives = { λ _ fault. fault ≡ PartFault.NoMemory };

    fn from(_failed: AllocFailed<T>) -> PartFault {
        PartFault::NoMemory
    }
}

/// Why a log's frames are no checkpoints.
#[derive(Clone, Copy, Debug, PartialEq, Eq)]
pub enum PointFault {
    /// The frame behind the gate at that place is the first that is no part of a checkpoint.
    BadPoint(u64),
    NoMemory,
}

impl fmt::Display for PointFault {
    fn fmt<W: fmt::Write>(&self, f: &mut fmt::Formatter<W>) -> fmt::Result {
        match self {
            PointFault::BadPoint(place) => write!(f, "no part of a checkpoint at byte {place}"),
            PointFault::NoMemory => f.write_str("out of memory"),
        }
    }
}

impl Error for PointFault {}

impl From<NoMemory> for PointFault {
    ghost use Rattle.checkpoint.specs.declared.fault.PointFault.{PointFault};

    ghost from_gives = { λ _ fault. fault ≡ PointFault.NoMemory };

    fn from(_error: NoMemory) -> PointFault {
        PointFault::NoMemory
    }
}
