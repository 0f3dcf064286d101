//! A catalogue in memory: its history, what is staged behind it, and the state behind both, which each commit takes further by what
//! it touches.
#![tactic(auto)]

pub use catalogue::{Catalogue, CoreFault};
pub use catalogue_tables::Standing;
pub use commit_stages::CommitCounts;
pub use engine::Engine;
pub use least::is_least_of;
pub use limits::passes_limits;
pub use numbered_store::FoundField;

mod catalogue;
mod engine;
mod least;
mod limits;
