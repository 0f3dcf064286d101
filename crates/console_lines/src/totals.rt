use marc_types::Sums;

/// What a command counts of one file: its accepted and refused pieces, and the sums over the receipts of its entries.
#[derive(Clone, Copy, Debug, PartialEq, Eq)]
pub struct Totals {
    pub accepted: u64,
    pub refused: u64,
    pub sums: Sums,
}
