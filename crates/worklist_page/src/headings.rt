//! The headings that aren't linked and stand most often.
ghost use Rattle.std.specs.Prelude.{◌≡◌, map, IfOk, OnOk};
ghost use Rattle.std.specs.List.{flat_map};
ghost use Rattle.worklist_page.specs.Headings.{all_open_headings, cells_row, heading_columns, heading_row, headings_table, same_heading, shown_cells, stands_again, top_of};
ghost use Rattle.worklist_page.specs.Pieces.{Adds};
ghost use Rattle.worklist_page.specs.Tables.{cell, number_cell, row_name};

use crate::names::Element;
use crate::pieces::{end, start};
use crate::tables::{
    add_cell, add_column, add_number_cell, add_row_name, end_table, start_rows, start_table,
};
use catalogue_core::Engine;
use heading_worklist::{Cells, Counted, counted_cells};
use marc_types::NoMemory;
use std::alloc::{AllocError, Global};
use std::collections::BTreeSet;

const SHOWN: usize = 100;

fn is_same(one: &Counted<'_>, other: &Counted<'_>) -> bool
    ensures { result ≡ same_heading one.now other.now }
{
    let one = one.heading;
    let other = other.heading;
    one.ambiguous == other.ambiguous && one.full == other.full
}

// Whether the last that was found has the same state and form.
fn stands_again(found: &[&Counted<'_>], heading: &Counted<'_>) -> bool
    ensures { result ≡ stands_again same_heading (map (λ c. c.now) found.now) heading.now }
{
    match found.last() {
        Some(last) => is_same(heading, last),
        None => false,
    }
}

/// The first of each state and form, a hundred at most.
fn top_of<'l, 'f>(
    alloc: Global,
    all: &'l BTreeSet<Counted<'f>>,
) -> Result<Vec<&'l Counted<'f>>, NoMemory>
    ensures { IfOk result (λ found. map (λ c. c.now) found.items ≡ top_of all.now.keys) }
{
    let mut found = Vec::new(alloc);
    for heading in all.iter() {
        if stands_again(&found, heading) {
            continue;
        }
        if found.len() == SHOWN {
            break;
        }
        found.push(heading)?;
    }
    Ok(found)
}

fn add_name(page: &mut Vec<u8>, cells: &Cells) -> Result<(), AllocError>
    ensures { OnOk result (Adds page.old.items page.new.items (row_name cells.now.heading)) }
{
    add_row_name(page, &cells.heading)
}

fn add_state(page: &mut Vec<u8>, cells: &Cells) -> Result<(), AllocError>
    ensures { OnOk result (Adds page.old.items page.new.items (cell cells.now.state)) }
{
    add_cell(page, &cells.state)
}

fn add_kind(page: &mut Vec<u8>, cells: &Cells) -> Result<(), AllocError>
    ensures { OnOk result (Adds page.old.items page.new.items (cell cells.now.kind)) }
{
    add_cell(page, &cells.kind)
}

fn add_count(page: &mut Vec<u8>, cells: &Cells) -> Result<(), AllocError>
    ensures { OnOk result (Adds page.old.items page.new.items (number_cell cells.now.count)) }
{
    add_number_cell(page, &cells.count)
}

fn add_candidates(page: &mut Vec<u8>, cells: &Cells) -> Result<(), AllocError>
    ensures { OnOk result (Adds page.old.items page.new.items (cell cells.now.candidates)) }
{
    add_cell(page, &cells.candidates)
}

fn add_candidate_names(page: &mut Vec<u8>, cells: &Cells) -> Result<(), AllocError>
    ensures { OnOk result (Adds page.old.items page.new.items (cell cells.now.candidate_headings)) }
{
    add_cell(page, &cells.candidate_headings)
}

fn add_cells(page: &mut Vec<u8>, cells: &Cells) -> Result<(), AllocError>
    ensures { OnOk result (Adds page.old.items page.new.items (shown_cells cells.now)) }
{
    add_name(page, cells)?;
    add_state(page, cells)?;
    add_kind(page, cells)?;
    add_count(page, cells)?;
    add_candidates(page, cells)?;
    add_candidate_names(page, cells)?;
    Ok(())
}

fn add_cells_row(page: &mut Vec<u8>, cells: &Cells) -> Result<(), AllocError>
    ensures { OnOk result (Adds page.old.items page.new.items (cells_row cells.now)) }
{
    start(page, Element::Tr)?;
    add_cells(page, cells)?;
    end(page, Element::Tr)?;
    Ok(())
}

/// The row of a heading.
#[tactic(auto, using(crate::proofs::Rows::no_row_shown))]
fn add_heading(
    page: &mut Vec<u8>,
    alloc: Global,
    engine: &Engine,
    heading: &Counted<'_>,
) -> Result<(), NoMemory>
    ensures { OnOk result (Adds page.old.items page.new.items (heading_row engine.now.state heading.now)) }
{
    match counted_cells(alloc, engine, heading)? {
        Some(cells) => {
            add_cells_row(page, &cells)?;
            Ok(())
        }
        None => Ok(()),
    }
}

/// The rows of headings.
#[tactic(auto, using(crate::proofs::Rows::begun_rows))]
fn add_headings(
    page: &mut Vec<u8>,
    alloc: Global,
    engine: &Engine,
    found: &[&Counted<'_>],
) -> Result<(), NoMemory>
    ensures { OnOk result (Adds page.old.items page.new.items (flat_map (heading_row engine.now.state) (map (λ c. c.now) found.now))) }
{
    for heading in found {
        add_heading(page, alloc, engine, heading)?;
    }
    Ok(())
}

/// The rows of those of a state, of which all open headings are given in their order.
fn add_top(
    page: &mut Vec<u8>,
    alloc: Global,
    engine: &Engine,
    all: &BTreeSet<Counted<'_>>,
) -> Result<(), NoMemory>
    requires { all.now.keys ≡ all_open_headings engine.now.state }
    ensures { OnOk result (Adds page.old.items page.new.items
        (flat_map (heading_row engine.now.state) (top_of (all_open_headings engine.now.state)))) }
{
    let found = top_of(alloc, all)?;
    add_headings(page, alloc, engine, &found)
}

fn add_columns(page: &mut Vec<u8>) -> Result<(), AllocError>
    ensures { OnOk result (Adds page.old.items page.new.items heading_columns) }
{
    add_column(page, b"Heading")?;
    add_column(page, b"State")?;
    add_column(page, b"Kind")?;
    add_column(page, b"Count")?;
    add_column(page, b"Candidates")?;
    add_column(page, b"Their names")?;
    Ok(())
}

/// The table of the headings that stand most often.
pub(crate) fn add_headings_table(
    page: &mut Vec<u8>,
    alloc: Global,
    engine: &Engine,
    all: &BTreeSet<Counted<'_>>,
) -> Result<(), NoMemory>
    requires { all.now.keys ≡ all_open_headings engine.now.state }
    ensures { OnOk result (Adds page.old.items page.new.items (headings_table engine.now.state)) }
{
    start_table(
        page,
        b"Headings that are not linked: the 100 that stand most often, with the candidates of the first place",
    )?;
    add_columns(page)?;
    start_rows(page)?;
    add_top(page, alloc, engine, all)?;
    end_table(page)?;
    Ok(())
}
