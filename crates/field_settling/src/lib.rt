//! What the stages of a commit make of one field: a link is made, ended or handed on.
#![tactic(auto)]

pub use ending::{await_key, end_link};
pub use heading::{Heading, a_linkable_authority_governs, governing};
pub use held::Held;
pub use linking::link_to;

mod ending;
mod heading;
mod held;
mod linking;
