//! Comparison texts and forms of headings: this project's profile of the NACO Authority File Comparison Rules.
#![tactic(auto)]

mod forms;
mod pen;
mod table;
mod text;

pub use forms::{append_item, form};
pub use text::comparison;
