use marc_types::{Refusal, Sequence};

/// A piece of a file that was refused: its number in the file, from 1, the place of its first byte, from 0, and why.
#[derive(Clone, Copy, Debug, PartialEq, Eq)]
pub struct RefusedItem {
    pub ordinal: u64,
    pub offset: u64,
    pub refusal: Refusal,
}

/// The refused items of a file, in their order.
pub type Refused = Sequence<RefusedItem>;
