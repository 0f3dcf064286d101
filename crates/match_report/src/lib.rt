//! The records that share a number: an ISBN or a Library of Congress control number.
#![tactic(auto)]

pub use fields::numbers;
pub use groups::Groups;
pub use isbn::isbn_of;
pub use number::{Number, Numbers};
pub use table::Matches;

mod fields;
mod groups;
mod isbn;
pub mod laws;
mod number;
mod posting;
mod table;
mod writing;
