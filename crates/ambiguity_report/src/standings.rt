//! How the fields of a record stand.
ghost use Rattle.std.specs.Prelude.{◌≡◌, ◌++◌, IfOk, OnOk};
ghost use Rattle.numbered_store.specs.Kept.{kept_record};
ghost use Rattle.ambiguity_report.specs.Standings.{standings_of, standing_at};

use catalogue_core::{Engine, Standing};
use marc_types::{Class, NoMemory};
use numbered_store::StoredRecord;
use std::alloc::Global;

/// How each field of a record stands, in order.
pub(crate) fn standings(
    alloc: Global,
    engine: &Engine,
    class: Class,
    kept: &StoredRecord,
) -> Result<Vec<Standing>, NoMemory>
    ensures { IfOk result (λ found. found.items ≡ standings_of engine.now.state class (kept_record kept.now)) }
{
    let places = kept.field_count();
    let mut found = Vec::with_capacity(alloc, places as usize)?;
    for place in 0..places {
        push_standing(&mut found, alloc, engine, class, kept, place)?;
    }
    Ok(found)
}

// How the field at a place stands, if there is one.
#[tactic(auto, using(crate::proofs::Fields::pushed, crate::proofs::Fields::not_pushed))]
fn push_standing(
    found: &mut Vec<Standing>,
    alloc: Global,
    engine: &Engine,
    class: Class,
    kept: &StoredRecord,
    place: u32,
) -> Result<(), NoMemory>
    ensures { OnOk result (found.new.items ≡ found.old.items ++ standing_at engine.now.state class place (kept_record kept.now)) }
{
    match engine.standing_at(alloc, class, kept, place)? {
        Some(standing) => {
            found.push(standing)?;
            Ok(())
        }
        None => Ok(()),
    }
}
