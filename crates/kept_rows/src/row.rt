ghost use Rattle.std.specs.Prelude.{◌≡◌, length};

use marc_types::{Class, Key, Links, Sequence};
use written_record::WrittenRecord;

/// A record in its written form, with its class, its key, and one tie per field.
#[derive(Debug, Drop)]
pub struct KeptRow {
    pub class: Class,
    pub key: Key,
    pub rec: WrittenRecord,
    pub ties: Links,
    ghost tied: { length ties ≡ length rec.fields },
}

/// Kept records under their keys, in their order.
pub type KeptRows = Sequence<KeptRow>;
