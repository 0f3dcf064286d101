ghost use Rattle.std.specs.Prelude.{◌≡◌};
ghost use Rattle.console_lines.specs.Ends.{end_of, end_status};

use crate::fault::Fault;

/// What could not be written.
#[derive(Clone, Copy, Debug, PartialEq, Eq)]
pub enum Unwritten {
    /// The file OUT.
    Out,
    /// The side output: the file REPORT, or REST.
    Side,
    /// The file PAGES.
    Pages,
    /// The console.
    Console,
}

/// What kept a command's outputs from being written.
#[derive(Clone, Copy, Debug, PartialEq, Eq)]
pub enum OutputsFault {
    /// Memory ran out.
    NoMemory,
    /// One of them could not be written.
    Unwritten(Unwritten),
}

/// How a command ends.
#[derive(Clone, Copy, Debug, PartialEq, Eq)]
pub enum End {
    /// All was done, and nothing was refused.
    Done,
    /// All was done, and something was refused.
    Refused,
    /// An output or the console could not be written, of which nothing is told.
    Unwritten(Unwritten),
    /// A fault, which the console was told.
    Told(Fault),
    /// The new journal got a part of what was to be brought, which the console was told.
    BroughtInPart,
    /// Parts of a catalogue differ, which the console was told.
    Differ,
}

impl End {
    /// The end where all was done: whether something was refused.
    pub fn of(refused: bool) -> End
        ensures { result ≡ end_of refused }
    {
        if refused { End::Refused } else { End::Done }
    }

    /// The exit status.
    pub fn status(self) -> u8
        ensures { result ≡ end_status self }
    {
        match self {
            End::Done => 0,
            End::Refused => 1,
            End::Unwritten(_) => 4,
            End::Told(fault) => fault.status(),
            End::BroughtInPart => 5,
            End::Differ => 11,
        }
    }
}
