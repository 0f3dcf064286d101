ghost use Rattle.std.specs.Prelude.{◌≡◌};
ghost use Rattle.marc8_latin.specs.declared.fault.Marc8Fault.TheVariants.{NoMemory as memory};

use marc_types::Set;
use std::alloc::{AllocError, AllocFailed};
use std::error::Error;
use std::fmt;

/// Why bytes have no text. Places count from 0, in the bytes that were given.
#[derive(Clone, Copy, Debug, PartialEq, Eq)]
pub enum Marc8Fault {
    /// The byte at this place begins no part of a text, or follows a delimiter and is no code.
    BadByte(u32),
    /// The escape sequence at this place leads to a set that isn't read.
    OtherSet(Set, u32),
    NoMemory,
}

impl fmt::Display for Marc8Fault {
    ghost use Rattle.marc8_latin.specs.Messages.{message_of};

    ghost output = { message_of };

    fn fmt<W: fmt::Write>(&self, f: &mut fmt::Formatter<W>) -> fmt::Result {
        f.write_str(match self {
            Marc8Fault::BadByte(_) => "no MARC-8",
            Marc8Fault::OtherSet(_, _) => "another character set",
            Marc8Fault::NoMemory => "out of memory",
        })
    }
}

impl Error for Marc8Fault {}

impl From<marc_types::NoMemory> for Marc8Fault {
    ghost from_gives = { λ _ fault. fault ≡ memory };

    fn from(_error: marc_types::NoMemory) -> Marc8Fault {
        Marc8Fault::NoMemory
    }
}

impl From<AllocError> for Marc8Fault {
    ghost from_gives = { λ _ fault. fault ≡ memory };

    fn from(_error: AllocError) -> Marc8Fault {
        Marc8Fault::NoMemory
    }
}

impl Marc8Fault {
    ghost use Rattle.std.specs.Prelude.{◌+◌, ◌^◌, ◌<◌};
    ghost use Rattle.marc8_latin.specs.Text.{moved};
    ghost use Rattle.marc8_latin.specs.Progress.{place_of};

    /// The fault as it stands in the whole, of which so many bytes are before.
    pub(crate) fn moved(self, by: u32) -> Marc8Fault
        requires { by + place_of self < 2 ^ 32 }
        ensures { result ≡ moved by self }
    {
        match self {
            Marc8Fault::BadByte(place) => Marc8Fault::BadByte(by + place),
            Marc8Fault::OtherSet(set, place) => Marc8Fault::OtherSet(set, by + place),
            Marc8Fault::NoMemory => Marc8Fault::NoMemory,
        }
    }
}
