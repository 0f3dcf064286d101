//! The outside of the catalogue: where bytes come from, where they go, the disk that keeps them over a crash, and the room
//! that opens and closes sources, sinks and logs by name.
//!
//! Each trait says by its clauses what a call does to the bytes that it tells, and counts its faults. A call answers
//! [`Failed`] only where the count of its object rose in that call, or stands at a `u64`'s greatest number.
#![tactic(auto)]

mod byte_sink;
mod bytes;
mod closed;
mod disk;
mod fault;
mod gate;
mod memory;
mod moving;
mod notes;
mod room;
mod sink;
mod source;

pub use byte_sink::ByteSink;
pub use bytes::Bytes;
pub use closed::GivenUp;
pub use disk::{Disk, LONGEST_DISK, LONGEST_WRITE};
pub use fault::{Failed, WriteFault};
pub use gate::{Gate, LARGEST_BATCH};
pub use memory::NoMemory;
pub use moving::copy_front;
pub use notes::{FileCounts, NoNotes, Note, Notes, Progress, RefusedPiece};
pub use room::Room;
pub use sink::Sink;
pub use source::Source;
