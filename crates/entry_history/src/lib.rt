//! What a journal keeps of a catalogue's history: batches of entries, their payloads, the reading of payloads, and what a
//! commit of a batch answers.
#![tactic(auto)]

pub use batch::Batch;
pub use counter::HistoryCounter;
pub use entry_payload::EntryPayload;
pub use event::Event;
pub use fault::EntryFault;
pub use reader::HistoryReader;
pub use reply::{BatchReply, Receipts};

mod batch;
mod counter;
mod entry;
mod entry_payload;
mod event;
mod extent;
mod fault;
pub mod laws;
mod lengths;
mod old;
mod part;
mod payload;
mod reader;
mod reply;
mod written;
