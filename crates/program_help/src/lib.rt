//! What the program tells of itself: how its commands are used, and its version.
#![tactic(auto)]

pub use slip::{Slip, slip_in};
pub use telling::{help, version};

mod slip;
mod telling;
mod texts;
