use marc_types::{Sequence, Text};

/// The library of a file that a command reads: its code, which obeys the rule of codes, and the file's name, which isn't empty.
#[derive(Debug, Drop, PartialEq, Eq)]
pub struct Library {
    pub code: Text,
    pub file: Text,
}

/// The libraries of a command's files, in their order.
pub type Libraries = Sequence<Library>;
