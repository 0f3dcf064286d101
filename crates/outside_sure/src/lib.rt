//! The outside in memory without faults: sources, sinks, disks and a room that fail for want of room alone.
#![tactic(auto)]

mod drawer;
mod held;
mod kept;
mod stored;
mod sure_disk;
mod sure_files;
mod sure_room;
mod sure_sink;
mod sure_source;

pub use sure_disk::SureDisk;
pub use sure_room::SureRoom;
pub use sure_sink::SureSink;
pub use sure_source::SureSource;
