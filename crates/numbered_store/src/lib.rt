//! The kept records of a catalogue, found by the numbers of their keys and exchanged in place.
#![tactic(auto)]

pub use fields::NEW_TIE;
pub use kept::{FoundField, StoredRecord};
pub use listing::RowMap;
pub use store::NumberedStore;

mod fields;
mod kept;
pub mod laws;
mod listing;
mod shelf;
mod slots;
mod store;
