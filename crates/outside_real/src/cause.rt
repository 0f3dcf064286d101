//! Why a call on a file failed, for a reader of standard error.
use std::fmt;
use std::io::{Error, ErrorKind};

/// Why a call on a file failed, as standard error tells it.
#[derive(Clone, Copy, Debug, PartialEq, Eq)]
pub enum Cause {
    /// Another command, or this one under another name, has the file.
    InUse,
    NoSuchFile,
    /// The folder in which a new file would stand isn't there.
    NoSuchFolder,
    PermissionDenied,
    IsFolder,
    ReadOnly,
    NoSpace,
    /// An input has more bytes than [`crate::LONGEST_INPUT`].
    LongerThanGibibyte,
    /// A large command's input has more bytes than [`crate::LONGEST_LARGE_INPUT`], or a log more than a disk.
    LongerThanTebibyte,
    /// An input that is opened more than once is no regular file.
    GivesOnce,
    /// A file of that name is there, and none is to be written over.
    Stands,
    /// The file is a journal, and an output would take its place.
    IsJournal,
    /// There is no such file, and its name has the form of a library's word.
    LibraryWord,
    NoMemory,
    /// A cut would take off more than a crash leaves behind a journal's end.
    MoreBehind,
    Other,
}

impl Cause {
    /// The cause of the system's answer.
    pub fn of(error: &Error) -> Cause {
        match error.kind() {
            ErrorKind::NotFound => Cause::NoSuchFile,
            ErrorKind::PermissionDenied => Cause::PermissionDenied,
            ErrorKind::IsADirectory => Cause::IsFolder,
            ErrorKind::ReadOnlyFilesystem => Cause::ReadOnly,
            ErrorKind::StorageFull | ErrorKind::QuotaExceeded => Cause::NoSpace,
            ErrorKind::OutOfMemory => Cause::NoMemory,
            _ => Cause::Other,
        }
    }

    /// The words behind the name of the file.
    pub fn words(self) -> &'static str {
        match self {
            Cause::InUse => ": in use by another command, or under another name",
            Cause::NoSuchFile => ": no such file",
            Cause::NoSuchFolder => ": no such folder",
            Cause::PermissionDenied => ": permission denied",
            Cause::IsFolder => ": is a folder",
            Cause::ReadOnly => ": on a read-only file system",
            Cause::NoSpace => ": no space left",
            Cause::LongerThanGibibyte => ": longer than 1 GiB",
            Cause::LongerThanTebibyte => ": longer than 1 TiB",
            Cause::GivesOnce => ": is read more than once, and is no regular file",
            Cause::Stands => ": is there already",
            Cause::IsJournal => " is a journal; no output is written over it",
            Cause::LibraryWord => {
                " looks like CODE=FILE, and there is no such file: is a word missing? ./NAME makes it"
            }
            Cause::NoMemory => ": out of memory",
            Cause::MoreBehind => {
                ": more stands behind the journal's end than a crash leaves: verify, salvage"
            }
            Cause::Other => ": the system failed",
        }
    }
}

impl fmt::Display for Cause {
    fn fmt<W: fmt::Write>(&self, f: &mut fmt::Formatter<W>) -> fmt::Result {
        f.write_str(self.words())
    }
}
