//! Files that are read into memory whole, and a disk of such bytes that nothing else sees.
#![tactic(auto)]

pub use byte_disk::ByteDisk;
pub use reading::{ReadFault, read_file};

mod byte_disk;
mod reading;
