//! The commit of an entry over a linked store, stage by stage: the record comes into its place, links that can't stay are dropped, a
//! changed heading is carried to what is linked, the record's own fields are settled, and then those that wait for the authority.
//!
//! A stage goes from seat to seat, in any order. At each it visits the record, makes another field of the one that stands there, and
//! exchanges it.
#![tactic(auto)]

pub use carrying::carry;
pub use changes::CommitCounts;
pub use commit::commit_entry;
pub use dropping::drop_links;
pub use ending::EndingLinks;
pub use heading::OwnHeading;
pub use headings::decoded_heading;
pub use touched::settle_touched;

mod authority;
mod bibliographic;
mod brought;
mod carrying;
mod changed;
mod changes;
mod commit;
mod counts;
mod dropping;
mod ending;
mod exchanging;
mod heading;
mod headings;
mod noting;
mod own;
mod settled;
mod settling;
mod stages;
mod touched;
mod visiting;
mod waiting;
