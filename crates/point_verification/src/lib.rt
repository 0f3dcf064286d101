//! The command that tells whether a log of checkpoints is a journal's own. Both are only read, and neither is held.
#![tactic(auto)]

pub use command::verify_point;

mod command;
mod judging;
mod logs;
mod own_point;
mod owning;
