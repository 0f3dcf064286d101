//! Authorities by the forms of their headings, all in numbers.
#![tactic(auto)]

pub use among::Among;
pub use candidates::Candidates;
pub use index::FormIndex;
pub use row::{FormRow, RowForms};

mod among;
mod candidates;
mod index;
mod key_list;
pub mod laws;
mod listings;
mod lists;
mod row;
