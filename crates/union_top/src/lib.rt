//! What the program does: the words of a command, over a room and a console. A command begins and ends with the room at hand, and what
//! it loads between them it loads without.
#![tactic(auto)]

pub use browsing_commands::{Browsed, Browsing, load as load_browsing};
pub use command::{Begun, begin, end, end_browsing, run};
pub use loading_commands::{Loaded, Loading, load};

mod asked_alone;
mod command;
mod journals;
mod parts;
mod points;
mod readings;
