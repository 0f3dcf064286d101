//! Which records a catalogue takes, and what an entry of its history is, with all that a commit asks of it.
#![tactic(auto)]

pub use identity::{class_of, first_control, graphic_text, is_deletion, key_of};
pub use key_text::key_of_text;
pub use part_forms::{base_form, full_form};
pub use preparation::Preparation;
pub use prepared::{Prepared, admit};

mod access;
mod admission;
mod facts;
mod headings;
mod identity;
mod key_text;
mod part_forms;
mod preparation;
mod prepared;
mod successor;
