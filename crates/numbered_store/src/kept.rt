//! A kept record: its written bytes, and the ties of its fields.
ghost use Rattle.std.specs.Prelude.{◌≡◌, IsTrue, length};
ghost use Rattle.std.specs.Option.{ForSome};
ghost use Rattle.iso2709_record.specs.Written.{fits};

use marc_types::{Field, Links, Tie};
use written_record::WrittenRecord;

/// A record of the catalogue: its written bytes, and one tie per field. Where no ties are kept, all are blank.
#[derive(Debug, Drop)]
pub struct StoredRecord {
    pub(crate) written: WrittenRecord,
    pub(crate) ties: Option<Links>,
    ghost fit: { IsTrue (fits written.fields) },
    ghost tied: { ForSome ties (λ ties. length ties ≡ length written.fields) },
}

/// A field of a kept record, and the tie that is lent from there.
#[derive(Debug, Drop)]
pub struct FoundField<'a> {
    pub(crate) field: Field,
    pub(crate) own: Option<&'a Tie>,
    pub(crate) blank: Tie,
}
