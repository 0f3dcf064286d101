//! Heading fields of MARC 21 records: which fields have headings and of what kind, the parts of a heading, the record
//! control numbers in `$0`, and how a field takes over the heading of an authority.
#![tactic(auto)]

pub use numbers::{add_key, is_number_of, names};
pub use parts::{belongs, controlled, full, has_subdivision, heading_len, part_count, part_region};
pub use rewriting::{rewrite, unlink};
pub use tables::{authority_kind, heading_kind, is_controlled_code, takes_subdivisions};

pub mod laws;
mod numbers;
mod parts;
mod rewriting;
mod tables;
