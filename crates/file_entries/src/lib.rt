//! The pieces of a file as entries of a catalogue, for one loader, and those that are refused.
#![tactic(auto)]

pub use entries::{FileEntries, NextEntry};
pub use refused::{Refused, RefusedItem};

mod entries;
pub mod laws;
mod refused;
