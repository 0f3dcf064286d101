//! The report of a catalogue: where it is ambiguous, which authorities share or cross their forms, which fields await an
//! authority, and how many of its fields are linked.
#![tactic(auto)]

pub use report::{write_report, write_state_report};

mod ambiguous;
mod awaits;
mod beside;
mod cross;
mod report;
mod rows;
mod shared;
mod standings;
mod totals;
mod words;
