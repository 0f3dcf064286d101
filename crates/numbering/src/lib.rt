//! Small numbers for keys, forms and other things, and with them the seats of heading fields.
//!
//! A numbering only grows, so a number stands for its thing for ever.
#![tactic(auto)]

pub use numbers::Numbering;
pub use pages::{Blank, PAGE, Pages};
pub use seat::{Seat, Seats};

pub mod laws;
mod numbers;
mod pages;
mod seat;
