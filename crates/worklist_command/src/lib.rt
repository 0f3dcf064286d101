//! The command on a journal that lists what a cataloguer works from, and shows it as a page.
#![tactic(auto)]

pub use command::make_worklist;
pub use unheld::list_unheld;

mod cataloguing;
mod command;
mod ending;
mod opening;
mod unheld;
mod writing;
