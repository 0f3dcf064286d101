//! How a field stands, as an answer that outlasts the catalogue's next change.
ghost use Rattle.std.specs.Prelude.{◌≡◌, IfOk, Some};
ghost use Rattle.catalogue_rules.specs.State.{kept_field, linkable_authorities};
ghost use Rattle.catalogue_rules.specs.Settle.{state_of};
ghost use Rattle.catalogue_core.specs.Catalogues.{all_entries};
ghost use Rattle.catalogue_core.specs.Told.{field_told};
ghost use Rattle.durable_catalogue.specs.Questions.{IsSeenIn, told};

use catalogue_core::{Catalogue, Engine, Standing};
use marc_types::{Class, Field, Key, NoMemory, Place, Tie, TryCopy};
use std::alloc::Global;

/// How a field stands: linked under a key, ambiguous, unlinked, no heading, or there is no such field.
#[derive(Debug, Drop)]
pub enum Seen {
    Linked(Key),
    Ambiguous,
    Unlinked,
    NoHeading,
    Absent,
}

/// How the field at a place stands.
pub fn look_at(alloc: Global, core: &Catalogue, place: &Place) -> Result<Seen, NoMemory>
    ensures { IfOk result (IsSeenIn (state_of (all_entries core.now)) place.now) }
{
    let engine = core.engine();
    match engine.field_under(alloc, place)? {
        Some(found) => {
            let (field, tie) = found.parts();
            look_at_field(alloc, engine, place.class, field, tie)
        }
        None => Ok(Seen::Absent),
    }
}

/// How a field with its tie stands.
#[tactic(auto, using(crate::proofs::Standing::told_linked, crate::proofs::Standing::told_unlinked))]
fn look_at_field(
    alloc: Global,
    engine: &Engine,
    class: Class,
    field: &Field,
    tie: &Tie,
) -> Result<Seen, NoMemory>
    ensures { IfOk result (λ seen.
        told seen ≡ Some (field_told (linkable_authorities engine.now.state) class (kept_field field.now tie.now))) }
{
    if let Some(key) = &tie.key {
        return Ok(Seen::Linked(key.key().copy(alloc)?));
    }
    match engine.standing(alloc, class, field, tie)? {
        Standing::Ambiguous(_) => Ok(Seen::Ambiguous),
        Standing::NoHeading => Ok(Seen::NoHeading),
        Standing::Unlinked => Ok(Seen::Unlinked),
        // a linked field has its key
        Standing::Linked => unreachable!(),
    }
}
