//! The other tables of the page.
ghost use Rattle.std.specs.Prelude.{◌≡◌, ◌++◌, OnOk, codes};
ghost use Rattle.std.specs.List.{flat_map};
ghost use Rattle.std.specs.Fmt.{decimal};
ghost use Rattle.worklist_page.specs.declared.names.Element.TheVariants as tag;
ghost use Rattle.worklist_page.specs.Pieces.{Adds, element, words};
ghost use Rattle.worklist_page.specs.Page.{brought_cells, brought_columns, brought_row, brought_table, kind_name, kind_row, kind_rows, kinds_table, totals_rows, totals_table};
ghost use Rattle.worklist_page.specs.Tables.{column, row_name};

use crate::bringer::Bringer;
use crate::brought::Brought;
use crate::figures::Figures;
use crate::names::{Attribute, Element};
use crate::pieces::{add_element, add_number, end, start, start_with};
use crate::shares::Shares;
use crate::tables::{
    add_column, add_count, add_count_row, add_shares, add_shares_columns, end_table, start_rows,
    start_table,
};
use marc_types::{Kind, Text};
use std::alloc::{AllocError, Global};
use std::collections::BTreeMap;

// ---- totals

fn add_totals_columns(page: &mut Vec<u8>) -> Result<(), AllocError>
    ensures { OnOk result (Adds page.old.items page.new.items (column (codes "What") ++ column (codes "Count"))) }
{
    add_column(page, b"What")?;
    add_column(page, b"Count")?;
    Ok(())
}

fn add_totals_rows(
    page: &mut Vec<u8>,
    authorities: u64,
    bibliographic: u64,
    shares: Shares,
) -> Result<(), AllocError>
    ensures { OnOk result (Adds page.old.items page.new.items (totals_rows authorities bibliographic shares)) }
{
    add_count_row(page, b"Authority records", authorities as u128)?;
    add_count_row(page, b"Bibliographic records", bibliographic as u128)?;
    add_count_row(page, b"Linked headings", shares.linked as u128)?;
    add_count_row(page, b"Ambiguous headings", shares.ambiguous as u128)?;
    add_count_row(page, b"Unlinked headings", shares.unlinked as u128)?;
    Ok(())
}

/// The table of the totals.
pub(crate) fn add_totals_table(
    page: &mut Vec<u8>,
    authorities: u64,
    bibliographic: u64,
    shares: Shares,
) -> Result<(), AllocError>
    ensures { OnOk result (Adds page.old.items page.new.items (totals_table authorities bibliographic shares)) }
{
    start_table(page, b"Records and headings of the whole catalogue")?;
    add_totals_columns(page)?;
    start_rows(page)?;
    add_totals_rows(page, authorities, bibliographic, shares)?;
    end_table(page)?;
    Ok(())
}

// ---- kinds

fn kind_name(kind: Kind) -> &'static [u8]
    ensures { result.now ≡ kind_name kind }
{
    match kind {
        Kind::Personal => b"Personal names",
        Kind::Corporate => b"Corporate names",
        Kind::Meeting => b"Meetings",
        Kind::Title => b"Titles",
        Kind::Chronological => b"Periods",
        Kind::Topical => b"Topics",
        Kind::Geographic => b"Places",
        Kind::Genre => b"Genres and forms",
    }
}

fn add_kind(
    page: &mut Vec<u8>,
    alloc: Global,
    figures: &Figures,
    kind: Kind,
) -> Result<(), AllocError>
    ensures { OnOk result (Adds page.old.items page.new.items (kind_row figures.now.kinds kind)) }
{
    let name = kind_name(kind);
    let shares = figures.of_kind(kind);
    add_shares(page, alloc, name, shares)?;
    Ok(())
}

fn add_kinds(page: &mut Vec<u8>, alloc: Global, figures: &Figures) -> Result<(), AllocError>
    ensures { OnOk result (Adds page.old.items page.new.items (kind_rows figures.now.kinds)) }
{
    add_kind(page, alloc, figures, Kind::Personal)?;
    add_kind(page, alloc, figures, Kind::Corporate)?;
    add_kind(page, alloc, figures, Kind::Meeting)?;
    add_kind(page, alloc, figures, Kind::Title)?;
    add_kind(page, alloc, figures, Kind::Chronological)?;
    add_kind(page, alloc, figures, Kind::Topical)?;
    add_kind(page, alloc, figures, Kind::Geographic)?;
    add_kind(page, alloc, figures, Kind::Genre)?;
    Ok(())
}

/// The table of the kinds.
pub(crate) fn add_kinds_table(
    page: &mut Vec<u8>,
    alloc: Global,
    figures: &Figures,
) -> Result<(), AllocError>
    ensures { OnOk result (Adds page.old.items page.new.items (kinds_table figures.now.kinds)) }
{
    start_table(page, b"Headings by kind")?;
    add_shares_columns(page, b"Kind")?;
    start_rows(page)?;
    add_kinds(page, alloc, figures)?;
    end_table(page)?;
    Ok(())
}

// ---- the history

fn add_run(page: &mut Vec<u8>, run: u64) -> Result<(), AllocError>
    ensures { OnOk result (Adds page.old.items page.new.items (row_name (decimal run))) }
{
    start_with(page, Element::Th, Attribute::Scope, b"row")?;
    add_number(page, run as u128)?;
    end(page, Element::Th)?;
    Ok(())
}

fn add_library(page: &mut Vec<u8>, library: &Text) -> Result<(), AllocError>
    ensures { OnOk result (Adds page.old.items page.new.items (element tag.Td (words library.now))) }
{
    add_element(page, Element::Td, library.as_bytes())
}

fn add_brought_cells(page: &mut Vec<u8>, bringer: &Bringer, count: u64) -> Result<(), AllocError>
    ensures { OnOk result (Adds page.old.items page.new.items (brought_cells (bringer.now, count))) }
{
    add_run(page, bringer.run)?;
    add_count(page, bringer.loader as u128)?;
    add_library(page, &bringer.library)?;
    add_count(page, count as u128)?;
    Ok(())
}

fn add_brought_row(page: &mut Vec<u8>, bringer: &Bringer, count: u64) -> Result<(), AllocError>
    ensures { OnOk result (Adds page.old.items page.new.items (brought_row (bringer.now, count))) }
{
    start(page, Element::Tr)?;
    add_brought_cells(page, bringer, count)?;
    end(page, Element::Tr)?;
    Ok(())
}

#[tactic(auto, using(crate::proofs::Rows::begun_rows, crate::proofs::Rows::no_rows))]
fn add_counts(page: &mut Vec<u8>, rows: &BTreeMap<Bringer, u64>) -> Result<(), AllocError>
    ensures { OnOk result (Adds page.old.items page.new.items (flat_map brought_row rows.now.entries)) }
{
    for (bringer, count) in rows.iter() {
        add_brought_row(page, bringer, *count)?;
    }
    Ok(())
}

fn add_brought_rows(page: &mut Vec<u8>, brought: &Brought) -> Result<(), AllocError>
    ensures { OnOk result (Adds page.old.items page.new.items (flat_map brought_row brought.now)) }
{
    add_counts(page, brought.rows())
}

fn add_brought_columns(page: &mut Vec<u8>) -> Result<(), AllocError>
    ensures { OnOk result (Adds page.old.items page.new.items brought_columns) }
{
    add_column(page, b"Run")?;
    add_column(page, b"Loader")?;
    add_column(page, b"Loaded under")?;
    add_column(page, b"Entries")?;
    Ok(())
}

/// The table of who brought entries.
pub(crate) fn add_brought_table(page: &mut Vec<u8>, brought: &Brought) -> Result<(), AllocError>
    ensures { OnOk result (Adds page.old.items page.new.items (brought_table brought.now)) }
{
    start_table(page, b"Entries of the history, by who brought them")?;
    add_brought_columns(page)?;
    start_rows(page)?;
    add_brought_rows(page, brought)?;
    end_table(page)?;
    Ok(())
}
