//! Which authority each seat is linked to, and which seats are linked to an authority.
//!
//! Authorities stand here by the numbers of their keys. A link may be taken out and put back later without memory.
#![tactic(auto)]

pub use link::Link;
pub use table::LinkTable;

mod link;
mod table;
