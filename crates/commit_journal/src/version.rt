//! The versions of a log.
ghost use Rattle.std.specs.Prelude.{◌≡◌, ◌≤◌};
ghost use Rattle.commit_journal.specs.Versions.{number_of};

/// A log's version. Only one of the newest is appended to.
#[derive(Clone, Copy, Debug, PartialEq, Eq)]
pub enum Version {
    One,
    Two,
}

impl Version {
    /// The number by which a header names it.
    pub fn number(self) -> u8
        ensures number { result ≡ number_of self }
        ensures least { 1 ≤ result }
        ensures most { result ≤ 2 }
    {
        match self {
            Version::One => 1,
            Version::Two => 2,
        }
    }
}
