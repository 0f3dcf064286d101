//! Records that are kept as the bytes of their written form.
#![tactic(auto)]

mod directory;
mod rewriting;
mod written;

pub use written::WrittenRecord;
