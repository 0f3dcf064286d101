ghost use Rattle.std.specs.Prelude.{◌≡◌};
ghost use Rattle.migrate_command.specs.Faults.{migrate_fault, migrate_opening};
ghost use Rattle.migrate_command.specs.declared.fault.MigrateFault.TheVariants.{DeviceFault};

use commit_journal::JournalFault;
use durable_catalogue::OpenFault;
use std::error::Error;
use std::fmt;

/// Why a history was not brought into a journal, in the order in which the reasons are sought; want of memory may come at any
/// point, and a device fault too.
#[derive(Clone, Copy, Debug, PartialEq, Eq)]
pub enum MigrateFault {
    /// A call on the new disk failed, and its count of faults rose.
    DeviceFault,
    /// What stands at that place is no part of a journal, or the frame behind that gate isn't valid.
    NotAJournal(u64),
    /// The new journal is of version 1, to which nothing is appended.
    OldVersion,
    /// The new journal's history passes the limits.
    Full,
    /// The old history doesn't begin with that of the new journal.
    NotPrefix,
    NoMemory,
}

impl fmt::Display for MigrateFault {
    fn fmt<W: fmt::Write>(&self, f: &mut fmt::Formatter<W>) -> fmt::Result {
        match self {
            MigrateFault::DeviceFault => f.write_str("the new journal's disk failed"),
            MigrateFault::NotAJournal(place) => write!(f, "not a journal at byte {place}"),
            MigrateFault::OldVersion => f.write_str("a journal of version 1"),
            MigrateFault::Full => f.write_str("the new journal's history passes the limits"),
            MigrateFault::NotPrefix => f.write_str("the new journal has another history"),
            MigrateFault::NoMemory => f.write_str("out of memory"),
        }
    }
}

impl Error for MigrateFault {}

impl From<commit_journal::DeviceFault> for MigrateFault {
    ghost from_gives = { λ _ fault. fault ≡ DeviceFault };

    fn from(_failed: commit_journal::DeviceFault) -> MigrateFault {
        MigrateFault::DeviceFault
    }
}

/// The journal's faults in a migration's words.
pub fn migrate_fault(fault: JournalFault) -> MigrateFault
    ensures { result ≡ migrate_fault fault }
{
    match fault {
        JournalFault::DeviceFault => MigrateFault::DeviceFault,
        JournalFault::NotAJournal(place) => MigrateFault::NotAJournal(place),
        JournalFault::NoMemory => MigrateFault::NoMemory,
    }
}

/// An opening's faults in a migration's words.
pub fn migrate_opening(fault: OpenFault) -> MigrateFault
    ensures { result ≡ migrate_opening fault }
{
    match fault {
        OpenFault::DeviceFault => MigrateFault::DeviceFault,
        OpenFault::NotAJournal(place) => MigrateFault::NotAJournal(place),
        OpenFault::OldVersion => MigrateFault::OldVersion,
        OpenFault::Full => MigrateFault::Full,
        OpenFault::NoMemory => MigrateFault::NoMemory,
    }
}
