//! What is sound of a log that may be damaged: the entries of its sound frames, and where each damage is.
#![tactic(auto)]

pub use damage::{Damage, Reason};
pub use sound::{SoundPart, find_sound};

mod damage;
mod found;
mod frame;
pub mod laws;
mod looking;
mod sound;
mod stepping;
mod version;
mod window;
