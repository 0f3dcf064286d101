//! Rows of a catalogue's state as they are handed over: kept records under their keys, and their order.
#![tactic(auto)]

pub use order::are_in_order;
pub use row::{KeptRow, KeptRows};
pub use sound::is_sound;

pub mod laws;
mod order;
mod reach;
mod row;
mod short;
mod sound;
