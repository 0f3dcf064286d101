//! The command `salvage`: what is sound of a damaged journal is brought into another journal.
#![tactic(auto)]

pub use command::salvage_journal;

mod command;
mod looking;
mod text;
