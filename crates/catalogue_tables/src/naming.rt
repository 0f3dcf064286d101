//! The key that a `$0` names.
ghost use Rattle.std.specs.Prelude.{◌≡◌, IfOk};
ghost use Rattle.catalogue_tables.specs.Choosing.{key_named};

use entry_record::key_of_text;
use marc_types::{Key, NoMemory, Subfield};
use std::alloc::Global;

/// The code of the subfield that holds a record control number, `$0`.
const NUMBER: u8 = b'0';

/// The key that a `$0` names, if its text reads as one: a code in parentheses, and a number.
pub fn named_key(alloc: Global, subfield: &Subfield) -> Result<Option<Key>, NoMemory>
    ensures { IfOk result (λ key. key ≡ key_named subfield.now) }
{
    if subfield.code != NUMBER {
        return Ok(None);
    }
    key_of_text(alloc, &subfield.text)
}
