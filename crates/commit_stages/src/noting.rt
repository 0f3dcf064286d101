//! The seats whose field a stage makes into another one are noted.
ghost use Rattle.std.specs.Prelude.{◌≡◌, IfOk, OnOk, Some};
ghost use Rattle.commit_stages.specs.Fields.{field_as};
ghost use Rattle.commit_stages.specs.Noted.{IsOther, is_another, noted_for};

use crate::visiting::FieldAt;
use field_settling::Held;
use marc_types::NoMemory;
use numbering::{Numbering, Seat};
use std::alloc::Global;

/// Notes the seat where another field is to come to it than was found there.
pub(crate) fn note_change(
    alloc: Global,
    seat: Seat,
    at: FieldAt<'_>,
    made: &Option<Held>,
    noted: &mut Numbering<Seat>,
) -> Result<(), NoMemory>
    ensures { OnOk result (noted.new ≡ noted_for made.now (field_as at.entry) seat noted.old) }
{
    if is_another(at, made) {
        noted.add(alloc, &seat)?;
    }
    Ok(())
}

/// The field that is to come to the seat, where it is another one than was found there: then the seat is noted. A field that is the
/// same needn't be written again.
#[tactic(auto, using(crate::proofs::Notes::same_found))]
pub(crate) fn note_another(
    alloc: Global,
    seat: Seat,
    at: FieldAt<'_>,
    held: Held,
    noted: &mut Numbering<Seat>,
) -> Result<Option<Held>, NoMemory>
    ensures made { IfOk result (IsOther held (field_as at.entry)) }
    ensures noted { OnOk result (noted.new ≡ noted_for (Some held) (field_as at.entry) seat noted.old) }
{
    if held.is(at.field, at.tie) {
        return Ok(None);
    }
    noted.add(alloc, &seat)?;
    Ok(Some(held))
}

// Whether there is something to come, and it is another field than was found, or has another tie.
fn is_another(at: FieldAt<'_>, made: &Option<Held>) -> bool
    ensures { result ≡ is_another made.now (field_as at.entry) }
{
    match made {
        Some(held) => !held.is(at.field, at.tie),
        None => false,
    }
}
