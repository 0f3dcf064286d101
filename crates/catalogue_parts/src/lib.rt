//! A catalogue in parts: what a part has of a history, and that what is joined of the parts is that of the one catalogue.
#![tactic(auto)]

pub use totals::Totals;

pub mod laws;
mod totals;
