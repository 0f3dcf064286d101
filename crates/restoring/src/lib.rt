//! A catalogue that begins with the state that a checkpoint holds, and the checkpoint of a catalogue's state.
#![tactic(auto)]

pub use comparing::has_state_of;
pub use engine::{EngineFault, from_rows};
pub use resuming::{Restored, resume};
pub use writing::write_point;

mod authority;
mod comparing;
mod engine;
mod feeding;
pub mod laws;
mod resting;
mod resuming;
mod scan;
mod writing;
