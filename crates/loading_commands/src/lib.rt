//! The commands that load files into a journal: `load`, and `run`, which writes the journal's export and report too. Each is three
//! calls, `begin`, `load` and `end`: `begin` and `end` have the room, and `load` between them has none.
#![tactic(auto)]

pub use journal::{
    FollowedLoad, Loaded, LoadedJournal, Loading, finish, give_up, load, load_followed,
};
pub use loading::{begin, end};
pub use outputs::write_outputs;
pub use texts::{files_text, has_refused};

mod ending;
mod faults;
mod inputs;
mod journal;
mod loading;
mod outputs;
mod texts;
