//! A field that is linked to an authority.
ghost use Rattle.std.specs.Prelude.{◌≡◌, IfOk};
ghost use Rattle.field_settling.specs.Held.{held_as, linked_by};

use crate::heading::Heading;
use crate::held::Held;
use heading_fields::rewrite;
use marc_types::{Class, Field, Key, NoMemory, Tie, TiedKey, TryCopy};
use std::alloc::Global;

/// The field linked to the authority with that key and heading, whole or by its base, and rewritten from the heading.
pub fn link_to(
    alloc: Global,
    key: &Key,
    heading: Heading<'_>,
    class: Class,
    field: &Field,
    whole: bool,
) -> Result<Held, NoMemory>
    ensures { IfOk result (λ held. held_as held ≡ linked_by class field.now whole key.now heading.entry.kind heading.entry.field.now) }
{
    Ok(Held {
        field: rewrite(alloc, field, heading.kind, class, heading.field, key, whole)?,
        tie: Tie {
            key: Some(TiedKey::new(alloc, key.copy(alloc)?)?),
            whole,
            awaits: None,
        },
    })
}
