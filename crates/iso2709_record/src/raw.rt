use marc_types::{Leader, Sequence, Tag};
use outside::Bytes;

/// A field as a record's bytes have it: its tag, and its area without the field terminator.
#[derive(Debug, Drop)]
pub struct RawField {
    pub tag: Tag,
    pub area: Bytes,
}

/// The fields of a record before their text is read.
pub type RawFields = Sequence<RawField>;

/// A record before its text is read: the leader bytes that it keeps, leader byte 09, which says how its text is coded
/// (`a` UTF-8, a blank MARC-8), and its fields in the order of the directory.
#[derive(Debug, Drop)]
pub struct RawRecord {
    pub leader: Leader,
    pub coding: u8,
    pub fields: RawFields,
}
