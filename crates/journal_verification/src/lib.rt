//! The command `verify`: a journal is read as an input, what it has is told, or whether a digest is its own, and nothing is written.
#![tactic(auto)]

pub use coming::Coming;
pub use command::verify;
pub use comparing::verify_digest;
pub use fault::{ReadFault, VerifyFault};
pub use verified::{Looked, Verified, look_source};

mod coming;
mod command;
mod comparing;
mod fault;
mod gate;
mod looking;
mod text;
mod verified;
mod walking;
