//! The rules of the catalogue: the definitions of the plain pass over a history, and their laws; and the counter of the records that a
//! commit visits.
#![tactic(auto)]

pub use steps::Steps;

pub mod laws;
mod steps;
