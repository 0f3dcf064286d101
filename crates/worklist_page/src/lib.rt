//! The page of a catalogue: what its headings need, and who brought its entries, for those who would rather look.
#![tactic(auto)]

pub use brought::Brought;
pub use page::page_bytes;

mod bars;
mod bringer;
mod brought;
mod figures;
mod headings;
pub mod laws;
mod libraries;
mod names;
mod page;
mod pieces;
mod ranked;
mod sections;
mod shares;
mod style;
mod tables;
mod texts;
