//! Loading files side by side into a catalogue under the lock.
#![tactic(auto)]

pub use file_end::FileEnd;
pub use followed::{Followed, load_files_followed};
pub use input::{InputFile, InputFiles};
pub use loading::load;
pub use meanwhile::Meanwhile;
pub use pager::Pager;
pub use parallel::load_files;
pub use result::{FileResult, Results};
pub use side_by_side::load_all;
pub use task::{FileTask, Shared};

mod beside;
mod counts;
mod dealing;
mod file_end;
mod followed;
mod following;
mod gathering;
mod input;
mod loading;
mod meanwhile;
mod pager;
mod parallel;
mod result;
mod side_by_side;
mod task;
mod turning;
