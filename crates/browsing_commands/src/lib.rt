//! The command `browse`: files are loaded into a journal as `run` does, while a reader pages through the established headings. It is three
//! calls, `begin`, `load` and `end`: `begin` and `end` have the room, and `load` between them has none.
#![tactic(auto)]

pub use browsing::{Browsed, Browsing, begin, load};
pub use ending::end;

mod browsing;
mod ending;
mod gathering;
mod lines;
mod paging;
mod standing;
