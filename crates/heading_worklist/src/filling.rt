//! Cells that are filled some at a time. So where memory ends amid a line one value is given up, and not each text that was made.
ghost use Rattle.std.specs.Prelude.{◌≡◌, OnOk};
ghost use Rattle.catalogue_tables.specs.Sharing.{shown_keys};
ghost use Rattle.heading_worklist.specs.Filling.{no_cells, with_candidates, with_counts, with_heading, with_place, with_reason, with_record};

use crate::cells::Cells;
use crate::fields::OpenField;
use crate::makers::{
    awaited_cell, heading_cell, identifiers_cell, key_cell, keys_cell, name_cell, names_cell,
    number_cell, reason_cell, tag_cell, word_cell,
};
use crate::reasons::reason_of;
use crate::texts::kind_word;
use catalogue_core::Engine;
use marc_types::{Class, Field, Key, Kind, NoMemory};
use std::alloc::Global;

/// Cells without a text.
pub(crate) fn no_cells(alloc: Global) -> Cells
    ensures { result ≡ no_cells }
{
    Cells {
        state: Vec::new(alloc),
        kind: Vec::new(alloc),
        heading: Vec::new(alloc),
        count: Vec::new(alloc),
        base_count: Vec::new(alloc),
        record_key: Vec::new(alloc),
        library: Vec::new(alloc),
        title: Vec::new(alloc),
        tag: Vec::new(alloc),
        field: Vec::new(alloc),
        identifiers: Vec::new(alloc),
        awaits: Vec::new(alloc),
        candidate_count: Vec::new(alloc),
        candidates: Vec::new(alloc),
        candidate_headings: Vec::new(alloc),
        why: Vec::new(alloc),
    }
}

/// How a heading stands, its kind, its text and its tag.
pub(crate) fn fill_heading(
    alloc: Global,
    cells: &mut Cells,
    state: &[u8],
    field: &Field,
    kind: Kind,
    class: Class,
) -> Result<(), NoMemory>
    ensures { OnOk result (cells.new ≡ with_heading state.now kind class field.now cells.old) }
{
    cells.state = word_cell(alloc, state)?;
    cells.kind = word_cell(alloc, kind_word(kind).as_bytes())?;
    cells.heading = heading_cell(alloc, field, kind, class)?;
    cells.tag = tag_cell(alloc, field.tag())?;
    Ok(())
}

/// How often its full form and its base form stand.
pub(crate) fn fill_counts(
    alloc: Global,
    cells: &mut Cells,
    count: u32,
    base_count: u32,
) -> Result<(), NoMemory>
    ensures { OnOk result (cells.new ≡ with_counts count base_count cells.old) }
{
    cells.count = number_cell(alloc, count as u64)?;
    cells.base_count = number_cell(alloc, base_count as u64)?;
    Ok(())
}

/// The key of its record, and the library.
pub(crate) fn fill_record(alloc: Global, cells: &mut Cells, key: &Key) -> Result<(), NoMemory>
    ensures { OnOk result (cells.new ≡ with_record key.now cells.old) }
{
    cells.record_key = key_cell(alloc, key)?;
    cells.library = word_cell(alloc, key.code.as_bytes())?;
    Ok(())
}

/// The record's title, and what is told of an open heading's field.
pub(crate) fn fill_place(
    alloc: Global,
    cells: &mut Cells,
    heading: &OpenField<'_>,
) -> Result<(), NoMemory>
    ensures { OnOk result (cells.new ≡ with_place heading.now cells.old) }
{
    cells.title = name_cell(alloc, heading.class, heading.kept)?;
    cells.field = number_cell(alloc, heading.number as u64)?;
    cells.identifiers = identifiers_cell(alloc, heading.field())?;
    cells.awaits = awaited_cell(alloc, heading.awaits())?;
    Ok(())
}

/// How many authorities could be meant, their keys and their names.
pub(crate) fn fill_candidates(
    alloc: Global,
    cells: &mut Cells,
    engine: &Engine,
    keys: &[&Key],
) -> Result<(), NoMemory>
    ensures { OnOk result (cells.new ≡ with_candidates engine.now.state (shown_keys keys.now) cells.old) }
{
    cells.candidate_count = number_cell(alloc, keys.len() as u64)?;
    cells.candidates = keys_cell(alloc, keys)?;
    cells.candidate_headings = names_cell(alloc, engine, keys)?;
    Ok(())
}

/// Why an open heading isn't linked.
pub(crate) fn fill_reason(
    alloc: Global,
    cells: &mut Cells,
    engine: &Engine,
    heading: &OpenField<'_>,
) -> Result<(), NoMemory>
    ensures { OnOk result (cells.new ≡ with_reason engine.now.state heading.now cells.old) }
{
    let reason = reason_of(alloc, engine, heading)?;
    cells.why = reason_cell(alloc, reason)?;
    Ok(())
}
