//! The open headings of records, one after the other.
ghost use Rattle.std.specs.Prelude.{◌≡◌, ◌++◌, map, option_and_then, option_to_list, IfOk, OnOk};
ghost use Rattle.catalogue_rules.specs.State.{rows_of};
ghost use Rattle.numbered_store.specs.Kept.{kept_record, shown_row};
ghost use Rattle.heading_worklist.specs.Headings.{compared, open_headings, open_in_class};
ghost use Rattle.heading_worklist.specs.Found.{compared_at, compared_in, open_state};

use crate::compared::Compared;
use crate::forms::forms_of;
use crate::known_forms::{KnownForms, shared_forms};
use catalogue_core::{Engine, Standing};
use marc_types::{Class, Key, NoMemory};
use numbered_store::{RowMap, StoredRecord};
use std::alloc::Global;
use std::collections::HashSet;

// Whether a field that stands so is ambiguous, where it is an open heading.
fn open_state(standing: Option<Standing>) -> Option<bool>
    ensures { result ≡ option_and_then open_state standing }
{
    match standing {
        Some(Standing::Ambiguous(keys)) => Some(!keys.is_empty()),
        Some(Standing::Unlinked) => Some(false),
        _ => None,
    }
}

/// The open heading that the field at a place is, if it is one.
fn open_at<'a>(
    known: &mut KnownForms,
    alloc: Global,
    engine: &Engine,
    class: Class,
    key: &'a Key,
    kept: &StoredRecord,
    place: u32,
) -> Result<Option<Compared<'a>>, NoMemory>
    ensures { IfOk result (λ found. found ≡ compared_at engine.now.state class (key.now, kept_record kept.now) place) }
{
    let Some(ambiguous) = open_state(engine.standing_at(alloc, class, kept, place)?) else {
        return Ok(None);
    };
    let Some(field) = kept.field_at(alloc, place)? else {
        return Ok(None);
    };
    let Some(forms) = forms_of(alloc, class, &field)? else {
        return Ok(None);
    };
    let (full, base) = shared_forms(known, alloc, forms)?;
    Ok(Some(Compared {
        ambiguous,
        full,
        base,
        class,
        key,
        field: place,
    }))
}

// Puts it behind those that were found.
#[tactic(auto, using(crate::proofs::Walked::pushed, crate::proofs::Walked::not_pushed))]
fn push_open<'a>(
    found: &mut Vec<Compared<'a>>,
    known: &mut KnownForms,
    alloc: Global,
    engine: &Engine,
    class: Class,
    key: &'a Key,
    kept: &StoredRecord,
    place: u32,
) -> Result<(), NoMemory>
    ensures { OnOk result (found.new.items ≡ found.old.items
        ++ option_to_list (compared_at engine.now.state class (key.now, kept_record kept.now) place)) }
{
    match open_at(known, alloc, engine, class, key, kept, place)? {
        Some(heading) => {
            found.push(heading)?;
            Ok(())
        }
        None => Ok(()),
    }
}

// Puts those of a record behind those that were found.
fn push_row<'a>(
    found: &mut Vec<Compared<'a>>,
    known: &mut KnownForms,
    alloc: Global,
    engine: &Engine,
    class: Class,
    key: &'a Key,
    kept: &StoredRecord,
) -> Result<(), NoMemory>
    ensures { OnOk result (found.new.items ≡ found.old.items
        ++ compared_in engine.now.state class (key.now, kept_record kept.now)) }
{
    for place in 0..kept.field_count() {
        push_open(found, known, alloc, engine, class, key, kept, place)?;
    }
    Ok(())
}

// Puts those of a class behind those that were found.
fn push_class<'a>(
    found: &mut Vec<Compared<'a>>,
    known: &mut KnownForms,
    alloc: Global,
    engine: &Engine,
    class: Class,
    rows: &RowMap<'a>,
) -> Result<(), NoMemory>
    requires { map shown_row rows.now.entries ≡ rows_of class engine.now.state }
    ensures { OnOk result (found.new.items ≡ found.old.items ++ map compared (open_in_class engine.now.state class)) }
{
    for (key, kept) in rows {
        push_row(found, known, alloc, engine, class, *key, *kept)?;
    }
    Ok(())
}

/// All open headings: authorities first, each class in key order, fields ascending.
pub fn open_headings<'a>(alloc: Global, engine: &'a Engine) -> Result<Vec<Compared<'a>>, NoMemory>
    ensures { IfOk result (λ found. found.items ≡ map compared (open_headings engine.now.state)) }
{
    let authorities = engine.rows(alloc, Class::Authority)?;
    let bibliographic = engine.rows(alloc, Class::Bibliographic)?;
    let mut found = Vec::new(alloc);
    let mut known = HashSet::new(alloc);
    let (first, second) = (Class::Authority, Class::Bibliographic);
    push_class(&mut found, &mut known, alloc, engine, first, &authorities)?;
    push_class(
        &mut found,
        &mut known,
        alloc,
        engine,
        second,
        &bibliographic,
    )?;
    Ok(found)
}
