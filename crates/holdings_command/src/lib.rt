//! The command that writes a journal's records with the holdings of a file behind them.
#![tactic(auto)]

pub use command::attach_holdings;
pub use ready::{Ready, prepare};
pub use writing::write_both;

mod command;
mod lines;
mod ready;
mod shelving;
mod writing;
