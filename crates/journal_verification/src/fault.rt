ghost use Rattle.std.specs.Prelude.{◌≡◌};
ghost use Rattle.journal_verification.specs.Coming.{verify_fault};

use marc_types::NoMemory;
use outside::Failed;
use std::alloc::AllocError;

/// Why bytes don't come.
#[derive(Clone, Copy, Debug, PartialEq, Eq)]
pub enum ReadFault {
    /// The input failed.
    InputFault,
    NoMemory,
}

/// Why a journal is not verified.
#[derive(Clone, Copy, Debug, PartialEq, Eq)]
pub enum VerifyFault {
    /// The input failed.
    InputFault,
    /// What stands at that place is no part of a journal.
    NotAJournal(u64),
    NoMemory,
}

impl From<Failed> for ReadFault {
    ghost use Rattle.journal_verification.specs.declared.fault.ReadFault.{ReadFault};

    ghost from_gives = { λ _ fault. fault ≡ ReadFault.InputFault };

    fn from(_failed: Failed) -> ReadFault {
        ReadFault::InputFault
    }
}

impl From<AllocError> for ReadFault {
    ghost use Rattle.journal_verification.specs.declared.fault.ReadFault.{ReadFault};

    ghost from_gives = { λ _ fault. fault ≡ ReadFault.NoMemory };

    fn from(_error: AllocError) -> ReadFault {
        ReadFault::NoMemory
    }
}

impl From<NoMemory> for ReadFault {
    ghost use Rattle.journal_verification.specs.declared.fault.ReadFault.{ReadFault};

    ghost from_gives = { λ _ fault. fault ≡ ReadFault.NoMemory };

    fn from(_fault: NoMemory) -> ReadFault {
        ReadFault::NoMemory
    }
}

impl From<ReadFault> for VerifyFault {
    ghost from_gives = { λ read fault. fault ≡ verify_fault read };

    fn from(fault: ReadFault) -> VerifyFault {
        match fault {
            ReadFault::InputFault => VerifyFault::InputFault,
            ReadFault::NoMemory => VerifyFault::NoMemory,
        }
    }
}

impl From<NoMemory> for VerifyFault {
    ghost use Rattle.journal_verification.specs.declared.fault.VerifyFault.{VerifyFault};

    ghost from_gives = { λ _ fault. fault ≡ VerifyFault.NoMemory };

    fn from(_fault: NoMemory) -> VerifyFault {
        VerifyFault::NoMemory
    }
}
