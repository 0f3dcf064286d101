//! Holdings records, and a shelf that finds them by the bibliographic record that they belong to.
#![tactic(auto)]

pub use admission::admit_holding;
pub use groups::HoldingGroups;
pub use holding::{Holding, HoldingContent};
pub use packed::PackedHolding;
pub use refusal::{HoldingFault, HoldingRefusal};
pub use shelf::HoldingShelf;

mod admission;
mod groups;
mod holding;
mod packed;
mod refusal;
mod shelf;
