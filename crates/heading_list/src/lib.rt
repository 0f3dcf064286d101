//! The list of a catalogue's headings of a kind, with see-from forms in their own places.
#![tactic(auto)]

pub use listing::headings_of_catalogue;

mod authorities;
mod first_rows;
mod lines;
mod links;
mod listing;
mod row;
mod typed;
