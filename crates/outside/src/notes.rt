//! What a command tells beside its console.
use std::fmt;

/// Where notes are told. By its type `tell` changes nothing but what tells them, and nothing comes of it: a command that told a note goes on
/// as one that told none.
pub trait Notes {
    /// Tells a note. What can't be told is passed over.
    fn tell(&mut self, note: &Note<'_>);
}

/// What a command tells of its work to those who wait for it, or look for what went wrong.
#[derive(Clone, Copy, Debug, PartialEq, Eq)]
pub enum Note<'a> {
    /// A piece of a file was refused.
    Refused(RefusedPiece<'a>),
    /// What became of the accepted pieces of a file.
    Counted(FileCounts<'a>),
    /// How far the command has come.
    Progress(Progress<'a>),
}

/// A piece that was refused, and what is known of it.
#[derive(Clone, Copy, Debug, PartialEq, Eq)]
pub struct RefusedPiece<'a> {
    /// The file, as the words name it.
    pub file: &'a str,
    /// The piece's number in the file, from 1.
    pub ordinal: u64,
    /// The place of its first byte.
    pub offset: u64,
    /// Why it was refused, and of which record.
    pub details: &'a str,
}

/// How many pieces of a file did what to the catalogue.
#[derive(Clone, Copy, Debug, PartialEq, Eq)]
pub struct FileCounts<'a> {
    /// The file, as the words name it.
    pub file: &'a str,
    /// Records of keys that had none.
    pub new: u64,
    /// Records that took a record's place.
    pub replaced: u64,
    /// Deletions of a record.
    pub deleted: u64,
    /// Deletions of keys that had no record.
    pub missed: u64,
}

/// How far a command has come with one of its files.
#[derive(Clone, Copy, Debug, PartialEq, Eq)]
pub enum Progress<'a> {
    /// A journal is opened: how many of its bytes were read.
    Opening {
        journal: &'a str,
        bytes: u64,
        of: u64,
    },
    /// A file is loaded: how many of its pieces were read.
    Loading {
        file: &'a str,
        pieces: u64,
    },
    /// An output is written: how many bytes it has.
    Writing {
        out: &'a str,
        bytes: u64,
    },
}

impl fmt::Display for Note<'_> {
    fn fmt<W: fmt::Write>(&self, f: &mut fmt::Formatter<W>) -> fmt::Result {
        match self {
            Note::Refused(piece) => write!(f, "{piece}"),
            Note::Counted(counts) => write!(f, "{counts}"),
            Note::Progress(progress) => write!(f, "{progress}"),
        }
    }
}

impl fmt::Display for RefusedPiece<'_> {
    fn fmt<W: fmt::Write>(&self, f: &mut fmt::Formatter<W>) -> fmt::Result {
        let (file, ordinal, offset) = (self.file, self.ordinal, self.offset);
        let details = self.details;
        write!(f, "{file}: piece {ordinal} at byte {offset}: {details}")
    }
}

impl fmt::Display for FileCounts<'_> {
    fn fmt<W: fmt::Write>(&self, f: &mut fmt::Formatter<W>) -> fmt::Result {
        let (file, new, replaced) = (self.file, self.new, self.replaced);
        let (deleted, missed) = (self.deleted, self.missed);
        write!(
            f,
            "{file}: new {new}, replaced {replaced}, deleted {deleted}, "
        )?;
        write!(f, "deletions of no record {missed}")
    }
}

impl fmt::Display for Progress<'_> {
    fn fmt<W: fmt::Write>(&self, f: &mut fmt::Formatter<W>) -> fmt::Result {
        match self {
            Progress::Opening { journal, bytes, of } => {
                write!(f, "{journal}: {bytes} of {of} bytes read")
            }
            Progress::Loading { file, pieces } => write!(f, "{file}: {pieces} pieces"),
            Progress::Writing { out, bytes } => write!(f, "{out}: {bytes} bytes written"),
        }
    }
}

/// Tells nothing.
#[derive(Clone, Copy, Debug)]
pub struct NoNotes;

impl Notes for NoNotes {
    fn tell(&mut self, _note: &Note<'_>) {}
}
