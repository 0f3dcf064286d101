//! The words of the command line, and what they ask for.
#![tactic(auto)]

pub use asked::{
    AloneRequest, BrowseRequest, HeadingRange, HeldLook, HoldingsRequest, LoadRequest, Look,
    Outputs, PartsRequest, PointRequest, Request, Unasked, UnheldLook,
};
pub use kind::named_kind;
pub use library::{Libraries, Library};
pub use topic::{Topic, named_topic};
pub use words::{Words, behind_large, is_large, request};

mod asked;
mod kind;
pub mod laws;
mod library;
mod loading;
mod looking;
mod names;
mod parts;
mod topic;
mod words;
