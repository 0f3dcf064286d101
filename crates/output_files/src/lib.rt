//! The outputs of the commands: documents, each written into a file of a room, which is whole or as it was on every path.
#![tactic(auto)]

pub use both::write_in_turn;
pub use document::{Document, write_document};
pub use export::Export;
pub use kept::is_kept;
pub use report::{report_bytes, state_report_bytes};

mod both;
mod document;
mod export;
mod kept;
mod report;
