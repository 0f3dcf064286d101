//! The texts of single cells.
ghost use Rattle.std.specs.Prelude.{◌≡◌, ◌++◌, [], IfOk, OnOk};
ghost use Rattle.std.specs.Fmt.{decimal};
ghost use Rattle.std.specs.Option.{option_copied, option_map_or};
ghost use Rattle.heading_fields.specs.Numbers.{key_text};
ghost use Rattle.catalogue_rules.specs.Output.{tag_text};
ghost use Rattle.catalogue_tables.specs.Sharing.{shown_keys};
ghost use Rattle.numbered_store.specs.Kept.{kept_record};
ghost use Rattle.heading_worklist.specs.Lines.{name_under, names_text};
ghost use Rattle.heading_worklist.specs.Reasons.{reason_words};
ghost use Rattle.heading_worklist.specs.Texts.{heading_text, identifiers_text, keys_text, name_of_kept};

use crate::cells::{add_keys, add_number, add_tag, first_keys};
use crate::names::add_name;
use crate::reasons::{Reason, add_reason};
use crate::texts::{add_heading, add_identifiers};
use catalogue_core::Engine;
use heading_fields::add_key;
use marc_types::{Class, Field, Key, Kind, NoMemory, Tag};
use numbered_store::StoredRecord;
use std::alloc::Global;

pub(crate) fn word_cell(alloc: Global, word: &[u8]) -> Result<Vec<u8>, NoMemory>
    ensures { IfOk result (λ cell. cell.items ≡ word.now) }
{
    let mut cell = Vec::new(alloc);
    cell.extend_from_slice(word)?;
    Ok(cell)
}

pub(crate) fn number_cell(alloc: Global, number: u64) -> Result<Vec<u8>, NoMemory>
    ensures { IfOk result (λ cell. cell.items ≡ decimal number) }
{
    let mut cell = Vec::new(alloc);
    add_number(&mut cell, number)?;
    Ok(cell)
}

pub(crate) fn key_cell(alloc: Global, key: &Key) -> Result<Vec<u8>, NoMemory>
    ensures { IfOk result (λ cell. cell.items ≡ key_text key.now) }
{
    let mut cell = Vec::new(alloc);
    add_key(&mut cell, key)?;
    Ok(cell)
}

/// The text of a key, where there is one.
pub(crate) fn awaited_cell(alloc: Global, key: Option<&Key>) -> Result<Vec<u8>, NoMemory>
    ensures { IfOk result (λ cell. cell.items ≡ option_map_or key_text (option_copied key.entry) []) }
{
    match key {
        Some(key) => key_cell(alloc, key),
        None => Ok(Vec::new(alloc)),
    }
}

pub(crate) fn tag_cell(alloc: Global, tag: &Tag) -> Result<Vec<u8>, NoMemory>
    ensures { IfOk result (λ cell. cell.items ≡ tag_text tag.now) }
{
    let mut cell = Vec::new(alloc);
    add_tag(&mut cell, tag)?;
    Ok(cell)
}

pub(crate) fn heading_cell(
    alloc: Global,
    field: &Field,
    kind: Kind,
    class: Class,
) -> Result<Vec<u8>, NoMemory>
    ensures { IfOk result (λ cell. cell.items ≡ heading_text kind class field.now) }
{
    let mut cell = Vec::new(alloc);
    add_heading(alloc, &mut cell, field, kind, class)?;
    Ok(cell)
}

pub(crate) fn name_cell(
    alloc: Global,
    class: Class,
    kept: &StoredRecord,
) -> Result<Vec<u8>, NoMemory>
    ensures { IfOk result (λ cell. cell.items ≡ name_of_kept class (kept_record kept.now)) }
{
    let mut cell = Vec::new(alloc);
    add_name(alloc, &mut cell, class, kept)?;
    Ok(cell)
}

pub(crate) fn identifiers_cell(alloc: Global, field: &Field) -> Result<Vec<u8>, NoMemory>
    ensures { IfOk result (λ cell. cell.items ≡ identifiers_text field.now) }
{
    let mut cell = Vec::new(alloc);
    add_identifiers(alloc, &mut cell, field)?;
    Ok(cell)
}

pub(crate) fn keys_cell(alloc: Global, keys: &[&Key]) -> Result<Vec<u8>, NoMemory>
    ensures { IfOk result (λ cell. cell.items ≡ keys_text (shown_keys keys.now)) }
{
    let mut cell = Vec::new(alloc);
    add_keys(&mut cell, keys)?;
    Ok(cell)
}

pub(crate) fn reason_cell(alloc: Global, reason: Reason) -> Result<Vec<u8>, NoMemory>
    ensures { IfOk result (λ cell. cell.items ≡ reason_words reason) }
{
    let mut cell = Vec::new(alloc);
    add_reason(&mut cell, reason)?;
    Ok(cell)
}

/// The name of the authority under a key.
fn add_name_under(
    alloc: Global,
    cell: &mut Vec<u8>,
    engine: &Engine,
    key: &Key,
) -> Result<(), NoMemory>
    ensures { OnOk result (cell.new.items ≡ cell.old.items ++ name_under engine.now.state key.now) }
{
    match engine.look(Class::Authority, key) {
        Some(kept) => add_name(alloc, cell, Class::Authority, kept),
        None => Ok(()),
    }
}

pub(crate) fn name_under_cell(
    alloc: Global,
    engine: &Engine,
    key: &Key,
) -> Result<Vec<u8>, NoMemory>
    ensures { IfOk result (λ cell. cell.items ≡ name_under engine.now.state key.now) }
{
    let mut cell = Vec::new(alloc);
    add_name_under(alloc, &mut cell, engine, key)?;
    Ok(cell)
}

/// The names of the authorities under the first of the keys.
pub(crate) fn names_cell(alloc: Global, engine: &Engine, keys: &[&Key]) -> Result<Vec<u8>, NoMemory>
    ensures { IfOk result (λ cell. cell.items ≡ names_text engine.now.state (shown_keys keys.now)) }
{
    let mut cell = Vec::new(alloc);
    let [first, others @ ..] = first_keys(keys) else {
        return Ok(cell);
    };
    add_name_under(alloc, &mut cell, engine, first)?;
    for key in others {
        cell.extend_from_slice(b" | ")?;
        add_name_under(alloc, &mut cell, engine, key)?;
    }
    Ok(cell)
}
