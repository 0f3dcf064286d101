//! Cuts a file of MARC records into its pieces, in one buffer of fixed size, however the reads cut the bytes.
//!
//! The items of a file are its pieces and what stands in a piece's place and is refused. Contracts say what they are by
//! `items` of `specs/Pieces.antt`, and see a [`Pieces`] as the items that are still to come.
#![tactic(auto)]

mod pieces;
mod scan;
mod window;

pub use pieces::{Next, Pieces};
