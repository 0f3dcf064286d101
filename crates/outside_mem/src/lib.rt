//! The outside in memory: sources, sinks, disks and a room that tell their contents, and fail at listed calls.
#![tactic(auto)]

mod calls;
mod change;
mod crash;
mod disk;
mod files;
mod notes;
mod room;
mod sink;
mod source;
mod tape;

pub use disk::MemDisk;
pub use notes::MemNotes;
pub use room::MemRoom;
pub use sink::MemSink;
pub use source::MemSource;
