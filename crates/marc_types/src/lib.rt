//! The vocabulary of the union catalogue: MARC 21 records, keys, forms, and what is kept of them.
//!
//! Contracts see each type as plain data: a `Text` as its bytes, a `Sequence` as a list, a record as the record of its
//! parts, so `≡` of two values says that they are the same value.
#![tactic(auto)]

pub use copying::{NoMemory, TryCopy};
pub use entry::{CommitFault, Entries, Entry, Limits, Links, Receipt, Tie};
pub use field::{Field, Fields, Leader, Subfield, Subfields, Tag};
pub use form::{Form, Forms, Item, Items, Kind};
pub use key::{Class, Key, Keys, Place, Places};
pub use record::Record;
pub use refusal::{RecordFault, Refusal, Set};
pub use sequence::Sequence;
pub use sums::Sums;
pub use text::Text;
pub use tied_key::TiedKey;
pub use valid::{can_be_code, can_be_number, is_data_byte, is_printable_byte, makes_record};

mod copying;
mod entry;
mod field;
mod form;
mod key;
mod record;
mod refusal;
mod sequence;
mod short_text;
mod sums;
mod text;
mod tied_key;
mod valid;
