//! The pieces of a file as holdings, and those that are refused.
#![tactic(auto)]

pub use items::{FileHoldings, NextHolding};
pub use piece::prepare_holding;
pub use refused::RefusedHolding;

mod items;
pub mod laws;
mod piece;
mod refused;
