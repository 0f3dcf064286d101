//! The commands without a journal: a file through an empty catalogue, its refused pieces, and a workload.
#![tactic(auto)]

pub use entries::Entries;
pub use giving_back::give_back;
pub use making::make;
pub use passing::pass;

mod entries;
mod giving_back;
pub mod laws;
mod loaded;
mod loading;
mod making;
mod passing;
mod ready;
mod summing;
