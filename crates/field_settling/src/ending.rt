//! A link that ends, and what a field awaits in its place.
ghost use Rattle.std.specs.Prelude.{◌≡◌, IfOk};
ghost use Rattle.std.specs.Option.{option_copied};
ghost use Rattle.catalogue_rules.specs.State.{kept_field};
ghost use Rattle.catalogue_rules.specs.Settle.{await, end_link};
ghost use Rattle.field_settling.specs.Held.{held_as};

use crate::held::Held;
use heading_fields::unlink;
use marc_types::{Field, Key, NoMemory, Tie, TiedKey, TryCopy};
use std::alloc::Global;

fn tied(alloc: Global, key: Option<&Key>) -> Result<Option<TiedKey>, NoMemory>
    ensures { IfOk result (λ twin. twin ≡ option_copied key.entry) }
{
    match key {
        Some(key) => Ok(Some(TiedKey::new(alloc, key.copy(alloc)?)?)),
        None => Ok(None),
    }
}

/// The field without its link to the key. It awaits the successor, where there is one.
pub fn end_link(
    alloc: Global,
    field: &Field,
    tie: &Tie,
    key: &Key,
    successor: Option<&Key>,
) -> Result<Held, NoMemory>
    ensures { IfOk result (λ held. held_as held ≡ end_link key.now (option_copied successor.entry) (kept_field field.now tie.now)) }
{
    Ok(Held {
        field: unlink(alloc, field, key)?,
        tie: Tie {
            key: None,
            whole: tie.whole,
            awaits: tied(alloc, successor)?,
        },
    })
}

/// The field as it is, but that it awaits that key.
pub fn await_key(alloc: Global, field: &Field, tie: &Tie, key: &Key) -> Result<Held, NoMemory>
    ensures { IfOk result (λ held. held_as held ≡ await (kept_field field.now tie.now) key.now) }
{
    Ok(Held {
        field: field.copy(alloc)?,
        tie: Tie {
            key: tie.key.copy(alloc)?,
            whole: tie.whole,
            awaits: Some(TiedKey::new(alloc, key.copy(alloc)?)?),
        },
    })
}
