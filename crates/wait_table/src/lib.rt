//! Which seats wait for a form or for a key.
//!
//! Forms and keys stand here by their numbers. A seat's row may be taken out and put back later without memory.
#![tactic(auto)]

pub use key_numbers::KeyNumbers;
pub use table::WaitTable;
pub use waiting::{Asked, WaitRow, Waiting};

mod key_numbers;
mod table;
mod waiting;
