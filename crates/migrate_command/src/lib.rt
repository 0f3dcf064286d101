//! The command `migrate`: the history of a journal of version 1 is brought into a journal of version 2, entry by entry.
#![tactic(auto)]

pub use bringing::bring_history;
pub use command::migrate_journal;
pub use fault::MigrateFault;
pub use migration::migrate;

mod appending;
mod bringing;
mod command;
mod fault;
mod front;
mod migration;
mod told;
