//! Readers that page through the established headings while one writer takes entries: two copies of a table, of which readers read
//! one without waiting.
#![tactic(auto)]

pub use book::{Front, Naming, Opened};
pub use reader::{BrowseReader, PageFault};
pub use shared::Shared;
pub use still::Still;
pub use window::{Away, Window};
pub use writer::{BrowseWriter, Readers, open_browse};

mod board;
mod book;
mod reader;
mod shared;
mod still;
mod taking;
mod window;
mod writer;
