//! A lock that makes the calls of many threads on one object into one history.
#![tactic(auto)]

mod bells;
pub mod laws;
mod lock;
mod object;
mod opening;
mod pass;
mod rule;
mod sharing;
mod turns;
mod view;

pub use lock::HistoryLock;
pub use object::Object;
pub use pass::{Pass, Passes};
pub use view::Numbered;

/// There was no memory.
#[derive(Debug, Clone, Copy, PartialEq, Eq, Drop)]
pub struct NoMemory;
