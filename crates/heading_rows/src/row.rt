//! Rows and pages of established headings.
use marc_types::{Form, Key, NoMemory, Sequence, TryCopy};
use std::alloc::Global;

/// An established heading as headings are compared, and the key of its authority.
#[derive(Debug, Drop)]
pub struct BrowseRow {
    pub form: Form,
    pub key: Key,
}

/// Rows in their order.
pub type BrowseRows = Sequence<BrowseRow>;

/// Rows in order, and the number of entries of the list whose rows they are.
#[derive(Debug, Drop)]
pub struct BrowsePage {
    pub upto: u64,
    pub rows: BrowseRows,
}

impl TryCopy for BrowseRow {
    fn copy(&self, alloc: Global) -> Result<Self, NoMemory> {
        Ok(BrowseRow {
            form: self.form.copy(alloc)?,
            key: self.key.copy(alloc)?,
        })
    }
}
