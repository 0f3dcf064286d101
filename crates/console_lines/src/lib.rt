//! What the console is told: the lines of results, and of faults.
#![tactic(auto)]

pub use difference::tell_difference;
pub use end::{End, OutputsFault, Unwritten};
pub use ending::{end_of_output, end_of_outputs, tell_result};
pub use fault::{Fault, tell};
pub use numbered::{write_checkpoint, write_numbered, write_resumed};
pub use part::tell_part;
pub use results::{made_line, refused_lines, results_text, totals_line};
pub use totals::Totals;

mod difference;
mod end;
mod ending;
mod fault;
mod lines;
mod numbered;
mod part;
mod results;
mod totals;
