ghost use Rattle.std.specs.Prelude.{◌≡◌};

use marc_types::NoMemory;
use std::alloc::{AllocError, AllocFailed};
use std::error::Error;
use std::fmt;

/// Why a payload isn't taken.
#[derive(Clone, Copy, Debug, PartialEq, Eq)]
pub enum EntryFault {
    /// It isn't valid behind the entries before it.
    BadEntry,
    NoMemory,
}

impl fmt::Display for EntryFault {
    fn fmt<W: fmt::Write>(&self, f: &mut fmt::Formatter<W>) -> fmt::Result {
        f.write_str(match self {
            EntryFault::BadEntry => "bad entry",
            EntryFault::NoMemory => "out of memory",
        })
    }
}

impl Error for EntryFault {}

impl From<NoMemory> for EntryFault {
    ghost use Rattle.entry_history.specs.declared.fault.EntryFault.{EntryFault};

    ghost from_gives = { λ _ fault. fault ≡ EntryFault.NoMemory };

    fn from(_error: NoMemory) -> EntryFault {
        EntryFault::NoMemory
    }
}

impl From<AllocError> for EntryFault {
    ghost use Rattle.entry_history.specs.declared.fault.EntryFault.{EntryFault};

    ghost from_gives = { λ _ fault. fault ≡ EntryFault.NoMemory };

    fn from(_error: AllocError) -> EntryFault {
        EntryFault::NoMemory
    }
}

impl<T: Drop> From<AllocFailed<T>> for EntryFault {
    ghost use Rattle.entry_history.specs.declared.fault.EntryFault.{EntryFault};

    ghost from_gives = { λ _ fault. fault ≡ EntryFault.NoMemory };

    fn from(_failed: AllocFailed<T>) -> EntryFault {
        EntryFault::NoMemory
    }
}
