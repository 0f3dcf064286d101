//! What a cataloguer works from: the open headings of a catalogue, line by line.
#![tactic(auto)]

pub use cells::{Cells, add_number};
pub use compared::Compared;
pub use counted::Counted;
pub use finding::open_headings;
pub use heading_lines::counted_cells;
pub use order::counted_in_order;
pub use writing::write_worklist;

mod authorities;
mod authority_lines;
mod cells;
mod compared;
mod counted;
mod counts;
mod fields;
mod filling;
mod finding;
mod forms;
mod heading_lines;
mod identifying;
mod known_forms;
pub mod laws;
mod linked_key;
mod links;
mod makers;
mod names;
mod order;
mod quoting;
mod reasons;
mod stated;
mod texts;
mod writing;
