//! What the commands do with the journals of a room: they open and close them, and read histories of which no catalogue is made.
#![tactic(auto)]

pub use archive::{close_archive, open_archive};
pub use durable_catalogue::EntryTaker;
pub use entries::HistoryEntries;
pub use fault::fault_of_opening;
pub use history::{close_history, open_history};
pub use journal::{close_journal, limits_of, open_journal};
pub use refused::close_refused;
pub use scan::JournalScan;

mod archive;
mod entries;
mod fault;
mod history;
mod journal;
mod refused;
mod scan;
