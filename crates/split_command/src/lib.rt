//! The command `split`: files of records, cut into the files of parts that are loaded by themselves.
#![tactic(auto)]

pub use splitting::split;

mod dealing;
mod fault;
mod files;
mod group;
pub mod laws;
mod listing;
mod names;
mod outputs;
mod plan;
mod sample;
mod share;
mod splitting;
mod standing;
mod survey;
mod surveying;
