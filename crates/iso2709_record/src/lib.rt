//! MARC 21 records in ISO 2709: the rules of a record, the reading of it, its written form, and the writing of it.
#![tactic(auto)]

mod blocks;
mod checking;
mod decimal;
mod decoding;
mod field_data;
mod fields;
mod laws;
mod layout;
mod marks;
mod memory;
mod output;
mod parts;
mod raw;
mod reading_laws;
mod size;
mod subfields;
mod texts;

pub use blocks::{entry_block, leader_block};
pub use checking::check;
pub use decoding::decode;
pub use field_data::{field_from, subfields_of};
pub use laws::spelled_once;
pub use layout::{Layout, layout_of};
pub use memory::{append_field, encode_into, encode_vec};
pub use output::encode;
pub use parts::{coding_of, field_of, leader_of, start_of};
pub use raw::{RawField, RawFields, RawRecord};
pub use reading_laws::{one_answer, one_field, one_spelling, read_again, sound_sizes};
pub use size::{encoded_len, field_len, fits};
pub use subfields::{Cut, first_subfield};
pub use texts::{each_text_is_utf8, texts_are_utf8};
