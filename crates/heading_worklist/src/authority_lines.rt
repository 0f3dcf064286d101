//! The cells of authorities that stand to others.
ghost use Rattle.std.specs.Prelude.{◌≡◌, ◌||◌, IfOk};
ghost use Rattle.std.specs.List.{list_any};
ghost use Rattle.std.specs.Option.{option_copied};
ghost use Rattle.catalogue_tables.specs.Sharing.{shown_keys};
ghost use Rattle.heading_worklist.specs.Counting.{AreLinks, kept_in};
ghost use Rattle.heading_worklist.specs.Lines.{authority_cells, other_keys};

use crate::authorities::AuthorityHeading;
use crate::cells::Cells;
use crate::filling::{fill_candidates, fill_heading, fill_record, no_cells};
use crate::links::{LinkCounts, linked_times};
use crate::makers::{name_under_cell, number_cell};
use crate::order::is_kept;
use catalogue_core::Engine;
use marc_types::{Class, Key, NoMemory};
use std::alloc::Global;

/// The keys of a group but one.
pub(crate) fn other_keys<'k>(
    alloc: Global,
    own: &Key,
    group: &[&'k Key],
) -> Result<Vec<&'k Key>, NoMemory>
    ensures { IfOk result (λ others. shown_keys others.items ≡ other_keys own.now (shown_keys group.now)) }
{
    let mut others = Vec::new(alloc);
    for key in group {
        let key: &Key = key;
        if own != key {
            others.push(key)?;
        }
    }
    Ok(others)
}

/// Whether one of the keys is kept.
pub(crate) fn any_kept(keys: &[&Key], code: Option<&str>) -> bool
    ensures { result ≡ list_any (kept_in (option_copied code.entry)) (shown_keys keys.now) }
{
    for key in keys {
        if is_kept(key, code) {
            return true;
        }
    }
    false
}

/// Whether a key or one of others is kept.
pub(crate) fn is_kept_among(own: &Key, others: &[&Key], code: Option<&str>) -> bool
    ensures { result ≡ (kept_in (option_copied code.entry) own.now || list_any (kept_in (option_copied code.entry)) (shown_keys others.now)) }
{
    is_kept(own, code) || any_kept(others, code)
}

/// The cells of an authority that stands so to others.
pub(crate) fn authority_cells<'a>(
    alloc: Global,
    engine: &Engine,
    links: &LinkCounts<'a>,
    state: &[u8],
    others: &[&Key],
    key: &'a Key,
    heading: &AuthorityHeading,
) -> Result<Cells, NoMemory>
    requires { AreLinks engine.now.state links.now }
    ensures { IfOk result (λ cells. cells ≡ authority_cells engine.now.state state.now (shown_keys others.now) key.now heading.now) }
{
    let mut cells = no_cells(alloc);
    let kind = heading.kind;
    fill_heading(
        alloc,
        &mut cells,
        state,
        &heading.field,
        kind,
        Class::Authority,
    )?;
    fill_record(alloc, &mut cells, key)?;
    fill_candidates(alloc, &mut cells, engine, others)?;
    cells.count = number_cell(alloc, linked_times(links, key))?;
    cells.title = name_under_cell(alloc, engine, key)?;
    Ok(cells)
}
