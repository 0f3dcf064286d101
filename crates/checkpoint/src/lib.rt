//! Checkpoints of a catalogue: the payloads of a log that has them, their reading, and the last whole one of such a log.
//!
//! A payload begins a checkpoint (`S`), brings kept records (`R`), or ends one with the number of entries that the history had
//! and the number of records (`E`).
#![tactic(auto)]

pub use fault::{PartFault, PointFault};
pub use part::Part;
pub use parts::read_part;
pub use point::{Point, SoFar};
pub use points::read_point;
pub use written::{append_row, begin_payload, begin_rows, end_payload};

mod fault;
mod heads;
mod keys;
pub mod laws;
mod lengths;
mod part;
mod parts;
mod point;
mod points;
mod rows;
mod ties;
mod written;
