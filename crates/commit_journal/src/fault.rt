ghost use Rattle.std.specs.Prelude.{◌≡◌};
ghost use Rattle.commit_journal.specs.declared.fault.JournalFault.TheVariants.{DeviceFault, NoMemory};

use outside::Failed;
use std::alloc::{AllocError, AllocFailed};
use thiserror::Error;

/// A call on the disk failed, and its count of faults rose.
#[derive(Clone, Copy, Debug, PartialEq, Eq, Hash, Error)]
#[error("the journal's disk failed")]
pub struct DeviceFault;

impl From<Failed> for DeviceFault {
    fn from(_failed: Failed) -> DeviceFault {
        DeviceFault
    }
}

/// Why a disk could not be opened as a journal.
#[derive(Clone, Copy, Debug, PartialEq, Eq, Hash, Error)]
pub enum JournalFault {
    /// A call on the disk failed, and its count of faults rose.
    #[error("the journal's disk failed")]
    DeviceFault,
    /// What stands at that place is no part of a journal. Nothing was written.
    #[error("not a journal at byte {0}")]
    NotAJournal(u64),
    /// There was no memory. Nothing was written.
    #[error("out of memory")]
    NoMemory,
}

impl From<Failed> for JournalFault {
    ghost from_gives = { λ _ fault. fault ≡ DeviceFault };

    fn from(_failed: Failed) -> JournalFault {
        JournalFault::DeviceFault
    }
}

impl From<AllocError> for JournalFault {
    ghost from_gives = { λ _ fault. fault ≡ NoMemory };

    fn from(_error: AllocError) -> JournalFault {
        JournalFault::NoMemory
    }
}

impl<T: Drop> From<AllocFailed<T>> for JournalFault {
    ghost from_gives = { λ _ fault. fault ≡ NoMemory };

    fn from(_refused: AllocFailed<T>) -> JournalFault {
        JournalFault::NoMemory
    }
}
