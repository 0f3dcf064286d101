//! The established headings of a catalogue as rows in order, and a table of them that each entry changes.
#![tactic(auto)]

pub use heading::{Heading, Headings};
pub use row::{BrowsePage, BrowseRow, BrowseRows};
pub use table::Table;
pub use taker::HeadingTaker;

mod heading;
pub mod laws;
mod listing;
mod row;
mod shared_row;
mod table;
mod taker;
