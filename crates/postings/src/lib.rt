//! Things under names: a slot for each thing's row, and how often each name has each thing.
//!
//! A row may be taken out of its slot and put back later. Meanwhile the names go on counting it, so neither needs memory.
#![tactic(auto)]

pub use counts::Counts;
pub use group::Group;
pub use slots::Slots;

mod class_slots;
mod counts;
mod group;
mod record_slots;
mod slot;
mod slot_list;
mod slots;
