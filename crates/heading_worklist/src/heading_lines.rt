//! The cells of open headings.
ghost use Rattle.std.specs.Prelude.{◌≡◌, Some, IfOk, OnOk};
ghost use Rattle.catalogue_tables.specs.Sharing.{shown_keys};
ghost use Rattle.heading_worklist.specs.Filling.{with_candidates};
ghost use Rattle.heading_worklist.specs.Lines.{heading_cells, state_word};
ghost use Rattle.heading_worklist.specs.Worklist.{counted_cells};

use crate::cells::Cells;
use crate::counted::Counted;
use crate::fields::{OpenField, open_field_at};
use crate::filling::{
    fill_candidates, fill_counts, fill_heading, fill_place, fill_reason, fill_record, no_cells,
};
use catalogue_core::Engine;
use marc_types::{Key, NoMemory};
use std::alloc::Global;

fn state_word(ambiguous: bool) -> &'static [u8]
    ensures { result.now ≡ state_word ambiguous }
{
    if ambiguous { b"ambiguous" } else { b"unlinked" }
}

/// Keys, as they are lent.
fn lent(alloc: Global, keys: &[Key]) -> Result<Vec<&Key>, NoMemory>
    ensures { IfOk result (λ found. shown_keys found.items ≡ keys.now) }
{
    let mut found = Vec::with_capacity(alloc, keys.len())?;
    for key in keys {
        found.push(key)?;
    }
    Ok(found)
}

/// The authorities that an open heading could be linked to.
fn fill_open(
    alloc: Global,
    cells: &mut Cells,
    engine: &Engine,
    heading: &OpenField<'_>,
) -> Result<(), NoMemory>
    ensures { OnOk result (cells.new ≡ with_candidates engine.now.state heading.now.candidates cells.old) }
{
    let candidates = lent(alloc, heading.candidates.as_slice())?;
    fill_candidates(alloc, cells, engine, &candidates)
}

/// The cells of an open heading whose full form and base form stand so often.
pub(crate) fn heading_cells(
    alloc: Global,
    engine: &Engine,
    heading: &OpenField<'_>,
    count: u32,
    base_count: u32,
) -> Result<Cells, NoMemory>
    ensures { IfOk result (λ cells. cells ≡ heading_cells engine.now.state heading.now count base_count) }
{
    let mut cells = no_cells(alloc);
    let state = state_word(heading.is_ambiguous());
    let kind = heading.forms.kind;
    fill_heading(
        alloc,
        &mut cells,
        state,
        heading.field(),
        kind,
        heading.class,
    )?;
    fill_counts(alloc, &mut cells, count, base_count)?;
    fill_record(alloc, &mut cells, heading.key)?;
    fill_place(alloc, &mut cells, heading)?;
    fill_open(alloc, &mut cells, engine, heading)?;
    fill_reason(alloc, &mut cells, engine, heading)?;
    Ok(cells)
}

// The same of one that is there.
fn some_cells(
    alloc: Global,
    engine: &Engine,
    heading: &OpenField<'_>,
    counted: &Counted<'_>,
) -> Result<Option<Cells>, NoMemory>
    ensures { IfOk result (λ cells. cells ≡ Some (heading_cells engine.now.state heading.now counted.now.count counted.now.base_count)) }
{
    let cells = heading_cells(alloc, engine, heading, counted.count, counted.base_count)?;
    Ok(Some(cells))
}

/// The cells of the open heading at the place that was counted, with its counts; none where no open heading is there.
pub fn counted_cells(
    alloc: Global,
    engine: &Engine,
    counted: &Counted<'_>,
) -> Result<Option<Cells>, NoMemory>
    ensures { IfOk result (λ cells. cells ≡ counted_cells engine.now.state counted.now) }
{
    let heading = counted.heading;
    let Some(kept) = engine.look(heading.class, heading.key) else {
        return Ok(None);
    };
    let (class, key) = (heading.class, heading.key);
    match open_field_at(alloc, engine, class, key, kept, heading.field)? {
        Some(field) => some_cells(alloc, engine, &field, counted),
        None => Ok(None),
    }
}
