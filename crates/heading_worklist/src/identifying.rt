//! What the `$0` of a heading tells.
ghost use Rattle.std.specs.Prelude.{◌≡◌, IfOk};
ghost use Rattle.heading_worklist.specs.Identifying.{has_naming, is_absent, names_so};

use catalogue_core::Engine;
use entry_record::key_of_text;
use marc_types::{Class, Field, Key, NoMemory, Subfield};
use std::alloc::Global;

/// What a `$0` names: no key, a key under which no authority record stands, or one under which one stands.
#[derive(Clone, Copy, Debug, PartialEq, Eq)]
pub(crate) enum Naming {
    Otherwise,
    Nobody,
    Somebody,
}

/// Whether no authority record stands under a key.
pub(crate) fn is_absent(engine: &Engine, key: &Key) -> bool
    ensures { result ≡ is_absent engine.now.state key.now }
{
    engine.look(Class::Authority, key).is_none()
}

fn names_so(
    alloc: Global,
    engine: &Engine,
    naming: Naming,
    subfield: &Subfield,
) -> Result<bool, NoMemory>
    ensures { IfOk result (λ so. so ≡ names_so engine.now.state naming subfield.now) }
{
    if subfield.code != b'0' {
        return Ok(false);
    }
    let named = key_of_text(alloc, &subfield.text)?;
    match (naming, named) {
        (Naming::Otherwise, None) => Ok(true),
        (Naming::Nobody, Some(key)) => Ok(is_absent(engine, &key)),
        (Naming::Somebody, Some(key)) => Ok(!is_absent(engine, &key)),
        _ => Ok(false),
    }
}

/// Whether a field has a `$0` that names so.
pub(crate) fn has_naming(
    alloc: Global,
    engine: &Engine,
    naming: Naming,
    field: &Field,
) -> Result<bool, NoMemory>
    ensures { IfOk result (λ has. has ≡ has_naming engine.now.state naming field.now) }
{
    for subfield in field.subfields() {
        if names_so(alloc, engine, naming, subfield)? {
            return Ok(true);
        }
    }
    Ok(false)
}
