//! The commands behind `reading`: they look into a journal that they don't hold.
#![tactic(auto)]

pub use command::look_into;
pub use unheld::attach_unheld;

mod command;
mod opening;
mod unheld;
mod writing;
