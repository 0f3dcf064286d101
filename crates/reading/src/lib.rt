//! Reading a piece of a file as a MARC 21 record, and preparing its entry.
#![tactic(auto)]

pub use entry::prepare;
pub use record::read_record;

mod entry;
mod field;
pub mod laws;
mod record;
mod text;
