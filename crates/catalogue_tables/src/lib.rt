//! What the tables of a catalogue tell of its records, by keys, forms and places; they work in numbers.
#![tactic(auto)]

pub use choosing::{Chosen, heading_form};
pub use gathering::gather;
pub use known::KnownAuthority;
pub use naming::named_key;
pub use standing::Standing;
pub use tables::CatalogueTables;

mod authorities;
mod candidates;
mod choosing;
mod following;
mod gathering;
pub mod index_laws;
mod known;
pub mod laws;
mod naming;
mod sharing;
mod standing;
mod tables;
mod waiting;
mod waiting_choice;
