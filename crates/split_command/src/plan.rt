//! What is written of files, and where.
use marc_types::{Keys, Text};

/// The parts of a split, the bounds between them, and what their files' names begin with.
#[derive(Drop)]
pub struct Plan {
    pub parts: u64,
    pub prefix: Text,
    pub bounds: Keys,
}

/// Shares of the file with that number: so many, from the first on.
#[derive(Clone, Copy, Debug)]
pub struct Group {
    pub file: u64,
    pub first: u64,
    pub many: u64,
}
