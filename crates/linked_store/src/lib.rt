//! The records of a catalogue with the tables by which a commit finds the places that it touches: one type, whose tables agree
//! with its records, and which can go back to what it was.
#![tactic(auto)]

pub use held::can_be_heading;
pub use own::OwnRecord;
pub use readable::ReadableStore;
pub use store::LinkedStore;

mod back;
mod change;
mod choices;
mod fields;
mod held;
pub mod laws;
mod lending;
mod lists;
mod own;
mod placing;
mod readable;
mod rows;
mod seating;
mod standings;
mod staying;
mod store;
mod transaction;
mod turns;
mod wanted;
mod ways_back;
