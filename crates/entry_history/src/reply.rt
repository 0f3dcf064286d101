use marc_types::{CommitFault, Receipt, Sequence};

/// The receipts of committed entries, in their order.
pub type Receipts = Sequence<Receipt>;

/// What the commit of a batch answers: a receipt for each entry that was committed, and why no more were.
#[derive(Debug, Drop)]
pub struct BatchReply {
    pub receipts: Receipts,
    /// None where the whole batch was committed.
    pub end: Option<CommitFault>,
}
