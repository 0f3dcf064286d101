//! Why a commit that looks at touched places alone makes the state that a pass over the whole catalogue makes.
#![tactic(auto)]

pub mod between;
pub mod changes;
pub mod choices;
pub mod numbers;
pub mod places;
pub mod tables;
