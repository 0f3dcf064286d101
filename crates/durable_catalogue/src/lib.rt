//! The catalogue and its journal together: what is committed outlasts a crash.
#![tactic(auto)]

pub use archive::RecoveredReadOnly;
pub use durable::Durable;
pub use effects::Effects;
pub use fault::{OpenFault, open_fault};
pub use loading::Building;
pub use memory::OnClose;
pub use opening::{begin_log, find_entries, refuse_log, take_log};
pub use question::{Ask, Told};
pub use seen::Seen;
pub use taking::{EntryTaker, Reading, take_frames};

mod archive;
mod durable;
mod effects;
mod fault;
mod fitting;
pub mod laws;
mod loading;
mod memory;
mod news;
mod opening;
mod question;
mod seen;
mod staging;
mod taking;
