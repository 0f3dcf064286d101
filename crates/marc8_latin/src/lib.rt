//! MARC-8 text with the sets Basic Latin and Extended Latin, converted to UTF-8.
//!
//! A text is cut into parts: bytes that stand for a character, escape sequences that designate a set, and subfield
//! delimiters with their codes. In MARC-8 marks stand before their base; in UTF-8 they stand behind it.
#![tactic(auto)]

pub use fault::Marc8Fault;
pub use laws::one_reading;
pub use text::to_utf8;

mod charset;
mod fault;
mod laws;
mod part;
mod plain;
mod text;
mod writer;
