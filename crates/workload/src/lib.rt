//! Workloads: records that a seed and a count determine, for trials of a catalogue.
#![tactic(auto)]

pub use maker::Maker;
pub use making::make;

mod drafts;
mod draws;
mod fields;
mod maker;
mod making;
mod records;
