//! Stored selections of keys.
#![tactic(auto)]

pub use selection::Selection;

mod selection;
