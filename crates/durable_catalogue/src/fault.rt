ghost use Rattle.std.specs.Prelude.{◌≡◌};
ghost use Rattle.durable_catalogue.specs.Faults.{open_fault};

use commit_journal::JournalFault;
use std::error::Error;
use std::fmt;

/// Why a disk could not be opened as a catalogue, in the order in which the reasons are sought; want of memory may come at
/// any point.
#[derive(Clone, Copy, Debug, PartialEq, Eq)]
pub enum OpenFault {
    /// A call on the disk failed, and its count of faults rose.
    DeviceFault,
    /// What stands at that place is no part of a journal, or the frame behind that gate isn't valid.
    NotAJournal(u64),
    /// The journal is of version 1, to which nothing is appended.
    OldVersion,
    /// The history passes the limits.
    Full,
    NoMemory,
}

impl fmt::Display for OpenFault {
    fn fmt<W: fmt::Write>(&self, f: &mut fmt::Formatter<W>) -> fmt::Result {
        match self {
            OpenFault::DeviceFault => f.write_str("the journal's disk failed"),
            OpenFault::NotAJournal(place) => write!(f, "not a journal at byte {place}"),
            OpenFault::OldVersion => f.write_str("a journal of version 1"),
            OpenFault::Full => f.write_str("the history passes the limits"),
            OpenFault::NoMemory => f.write_str("out of memory"),
        }
    }
}

impl Error for OpenFault {}

/// The journal's faults in the catalogue's words.
pub fn open_fault(fault: JournalFault) -> OpenFault
    ensures { result ≡ open_fault fault }
{
    match fault {
        JournalFault::DeviceFault => OpenFault::DeviceFault,
        JournalFault::NotAJournal(place) => OpenFault::NotAJournal(place),
        JournalFault::NoMemory => OpenFault::NoMemory,
    }
}
