use holdings::HoldingRefusal;

/// A piece of a file that makes no holding: its number in the file, from 1, the place of its first byte, from 0, and why.
#[derive(Clone, Copy, Debug, PartialEq, Eq)]
pub struct RefusedHolding {
    pub ordinal: u64,
    pub offset: u64,
    pub refusal: HoldingRefusal,
}
