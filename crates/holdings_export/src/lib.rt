//! The export of a catalogue with each record's holdings behind it, and the holdings that wait for their record.
#![tactic(auto)]

pub use counts::{ShelfCounts, count};
pub use export::write_holdings;
pub use listing::Listing;
pub use waiting::WaitingHoldings;

mod counts;
mod export;
mod listing;
mod waiting;
