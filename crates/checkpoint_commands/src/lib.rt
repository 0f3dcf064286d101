//! The commands over checkpoints: `checkpoint` puts one of a journal's catalogue behind those of a log, and `quick` exports from the last
//! one and the entries behind it, and reports of the same state where that is asked for.
#![tactic(auto)]

pub use adding::add_point;
pub use checkpointing::put_checkpoint;
pub use last_point::read_last;
pub use quick::export_quickly;

mod adding;
mod checkpointing;
mod last_point;
mod outputs;
mod point_file;
mod quick;
mod resumed;
mod taking;
