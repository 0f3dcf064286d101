//! The outside over real files: what the program runs on. These few lines are the trusted edge: they tell no content, and
//! are proved against the traits for their counts of faults alone.
#![tactic(auto)]

mod beside;
mod cause;
mod count;
mod disk;
mod draft;
mod folder;
mod gate;
mod heard;
mod held;
mod leftover;
mod line_notes;
mod links;
mod mounts;
mod names;
mod opening;
mod room;
mod sink;
mod slips;
mod source;
mod straight;
mod tally;
mod target;
mod ticking;
mod watch;
mod watched;
mod writing;

pub use cause::Cause;
pub use disk::FileDisk;
pub use draft::Draft;
pub use gate::OpenGate;
pub use heard::{Heard, MOST_LINES};
pub use line_notes::LineNotes;
pub use room::{Counts, FileRoom, Intent};
pub use sink::FileSink;
pub use source::{FileSource, LONGEST_INPUT, LONGEST_LARGE_INPUT};
pub use tally::Tally;
pub use target::{Keep, Target};
pub use watched::WatchedFile;
