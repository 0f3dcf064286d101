//! The commands on a journal that is only read: its export, its report, its matches and its headings.
#![tactic(auto)]

pub use command::write_from_journal;
pub use due::Due;
pub use headings::list_headings;
pub use list::write_headings;
pub use matches::write_matches;
pub use table::write_table;
pub use taking::HistoryMatches;
pub use writing::write_due;

mod command;
mod due;
mod headings;
mod list;
mod matches;
mod table;
mod taking;
mod writing;
