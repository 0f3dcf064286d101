//! The commands over parts of a catalogue: what their reports and exports come to is joined, and is that of the whole.
#![tactic(auto)]

pub use joining::join_exports;
pub use telling::tell_totals;

mod appending;
mod comparing;
mod joining;
mod keys;
pub mod laws;
mod line;
mod numbers;
mod reports;
mod stop;
mod sums;
mod taking;
mod telling;
