//! The export: kept records in their written form.
#![tactic(auto)]

pub use export::{write_catalogue, write_rows, write_state};
pub use rows::{ExportRows, rows_in_order};

mod export;
mod rows;
