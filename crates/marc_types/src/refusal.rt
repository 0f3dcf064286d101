ghost use Rattle.std.specs.Prelude.{◌≡◌};
ghost use Rattle.marc_types.specs.declared.refusal.RecordFault.TheVariants.{NoMemory as memory};

use crate::copying;
use std::alloc::{AllocError, AllocFailed};

/// A MARC-8 character set that isn't read, by its name in the MARC-8 specification.
#[derive(Clone, Copy, Debug, PartialEq, Eq)]
pub enum Set {
    Eacc,
    BasicHebrew,
    BasicArabic,
    ExtendedArabic,
    BasicCyrillic,
    ExtendedCyrillic,
    BasicGreek,
    GreekSymbols,
    Subscripts,
    Superscripts,
    Unknown,
}

/// Why a piece of a file is refused. Entries are those of the directory, and offsets count in the entry's field; both from 0.
#[derive(Clone, Copy, Debug, PartialEq, Eq)]
pub enum Refusal {
    Overlong,
    Unfinished,
    BadLength,
    BadLeader,
    BadDirectory(u32),
    BadField(u32),
    UnknownCoding,
    /// The entry, and the offset of the first malformed byte.
    BadText(u32, u32),
    OtherType,
    NoNumber,
    BadCode,
    NoHeading,
    HeadingTooLong,
    NoRoom,
    /// The set, the entry, and the offset of its designation.
    OtherSet(Set, u32, u32),
}

impl Refusal {
    ghost use Rattle.marc_types.specs.Refusals.{number_of};

    /// The number that the console prints.
    pub fn number(&self) -> u8
        ensures { result ≡ number_of self.now }
    {
        match self {
            Refusal::Overlong => 1,
            Refusal::Unfinished => 2,
            Refusal::BadLength => 3,
            Refusal::BadLeader => 4,
            Refusal::BadDirectory(_) => 5,
            Refusal::BadField(_) => 6,
            Refusal::UnknownCoding => 7,
            Refusal::BadText(_, _) => 8,
            Refusal::OtherType => 9,
            Refusal::NoNumber => 10,
            Refusal::BadCode => 11,
            Refusal::NoHeading => 12,
            Refusal::HeadingTooLong => 13,
            Refusal::NoRoom => 14,
            Refusal::OtherSet(_, _, _) => 15,
        }
    }
}

/// Why no record came of some bytes: they are refused, or memory ran out.
#[derive(Clone, Copy, Debug, PartialEq, Eq)]
pub enum RecordFault {
    Refused(Refusal),
    NoMemory,
}

impl From<copying::NoMemory> for RecordFault {
    ghost from_gives = { λ _ fault. fault ≡ memory };

    fn from(_error: copying::NoMemory) -> RecordFault {
        RecordFault::NoMemory
    }
}

impl From<AllocError> for RecordFault {
    ghost from_gives = { λ _ fault. fault ≡ memory };

    fn from(_error: AllocError) -> RecordFault {
        RecordFault::NoMemory
    }
}

impl<T: Drop> From<AllocFailed<T>> for RecordFault {
    ghost from_gives = { λ _ fault. fault ≡ memory };

    fn from(_failed: AllocFailed<T>) -> RecordFault {
        RecordFault::NoMemory
    }
}
