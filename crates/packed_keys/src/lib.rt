//! Keys in one text each, for tables of many.
#![tactic(auto)]

pub use packed_key::PackedKey;

mod packed_key;
