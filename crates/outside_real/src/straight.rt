//! Why an output is written over its file, and not into a new one beside it.
use std::fmt;

/// Why an output is written straight.
#[derive(Clone, Copy, Debug, PartialEq, Eq)]
pub enum Straight {
    /// It is no regular file, or has a name of the system's own, as `/dev/stdout`.
    NoFile,
    /// It has several links, and a new file would be none of the others.
    Links,
    /// It is a place where a file is mounted.
    Mount,
    /// In its folder no new file can be made, put in its place and synced.
    Folder,
}

impl Straight {
    /// Whether it is told. Of what is no file nothing was to be expected.
    pub fn is_told(self) -> bool {
        self != Straight::NoFile
    }

    /// The words behind the name of the file.
    pub fn words(self) -> &'static str {
        match self {
            Straight::NoFile => " is no regular file",
            Straight::Links => " has several links",
            Straight::Mount => " is mounted",
            Straight::Folder => " is in a folder where no file can take its place",
        }
    }
}

impl fmt::Display for Straight {
    fn fmt<W: fmt::Write>(&self, f: &mut fmt::Formatter<W>) -> fmt::Result {
        f.write_str(self.words())
    }
}
