//! A journal that isn't held: what its bytes hold, which were read as an input, and why they aren't had or taken.
#![tactic(auto)]

pub use fault::{fault_of_look, fault_of_reading};
pub use opening::catalogue_of;

mod fault;
mod opening;
