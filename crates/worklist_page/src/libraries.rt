//! The libraries of a catalogue.
ghost use Rattle.std.specs.Prelude.{◌≡◌, ◌+◌, codes, drop, fold, take, IfOk, OnOk};
ghost use Rattle.std.specs.List.{flat_map};
ghost use Rattle.worklist_page.specs.Pieces.{Adds};
ghost use Rattle.worklist_page.specs.Shares.{no_shares, together};
ghost use Rattle.worklist_page.specs.Page.{libraries_table, library_row, library_rows};
ghost use Rattle.worklist_page.specs.Ranking.{by_size};
ghost use Rattle.worklist_page.specs.Tables.{shares_row};

use crate::figures::Figures;
use crate::ranked::Ranked;
use crate::shares::Shares;
use crate::tables::{add_shares, add_shares_columns, end_table, start_rows, start_table};
use marc_types::{NoMemory, Text};
use std::alloc::{AllocError, Global};
use std::collections::{BTreeMap, BTreeSet};

const SHOWN: usize = 50;

/// The libraries, that with the most headings first.
#[tactic(auto, using(crate::proofs::Rows::next_rank, crate::proofs::Rows::no_rank))]
fn ranks<'a>(
    alloc: Global,
    rows: &'a BTreeMap<Text, Shares>,
) -> Result<BTreeSet<Ranked<'a>>, NoMemory>
    ensures { IfOk result (λ ranks. ranks.keys ≡ by_size rows.now.entries) }
{
    let mut ranks = BTreeSet::new(alloc);
    for (code, shares) in rows.iter() {
        ranks.insert(Ranked {
            code,
            shares: *shares,
        })?;
    }
    Ok(ranks)
}

/// The libraries of a set, one after the other.
#[tactic(auto, using(crate::proofs::Rows::next_in_order, crate::proofs::Rows::none_in_order))]
fn in_order<'a>(alloc: Global, ranks: &BTreeSet<Ranked<'a>>) -> Result<Vec<Ranked<'a>>, NoMemory>
    ensures { IfOk result (λ rows. rows.items ≡ ranks.now.keys) }
{
    let mut rows = Vec::new(alloc);
    for rank in ranks.iter() {
        rows.push(Ranked {
            code: rank.code,
            shares: rank.shares,
        })?;
    }
    Ok(rows)
}

/// The libraries in their order.
fn by_size<'a>(alloc: Global, figures: &'a Figures) -> Result<Vec<Ranked<'a>>, NoMemory>
    ensures { IfOk result (λ rows. rows.items ≡ by_size figures.now.libraries) }
{
    let ranks = ranks(alloc, figures.libraries())?;
    in_order(alloc, &ranks)
}

fn sum(one: u64, other: u64) -> Result<u64, NoMemory>
    ensures { IfOk result (λ sum. sum ≡ one + other) }
{
    // so many fields are in no memory
    match one.checked_add(other) {
        Some(sum) => Ok(sum),
        None => Err(NoMemory),
    }
}

fn together(one: Shares, other: Shares) -> Result<Shares, NoMemory>
    ensures { IfOk result (λ sum. sum ≡ together one other) }
{
    Ok(Shares {
        linked: sum(one.linked, other.linked)?,
        ambiguous: sum(one.ambiguous, other.ambiguous)?,
        unlinked: sum(one.unlinked, other.unlinked)?,
    })
}

/// Libraries together.
fn sum_of(ranks: &[Ranked<'_>]) -> Result<Shares, NoMemory>
    ensures { IfOk result (λ sum. sum ≡ fold (λ sum r. together sum r.shares) no_shares ranks.now) }
{
    let mut so_far = Shares::none();
    for rank in ranks {
        so_far = together(so_far, rank.shares)?;
    }
    Ok(so_far)
}

/// The row of a library.
fn add_library(page: &mut Vec<u8>, alloc: Global, rank: &Ranked<'_>) -> Result<(), AllocError>
    ensures { OnOk result (Adds page.old.items page.new.items (library_row rank.now)) }
{
    add_shares(page, alloc, rank.code.as_bytes(), rank.shares)
}

#[tactic(auto, using(crate::proofs::Rows::begun_rows, crate::proofs::Rows::no_rows, crate::proofs::Rows::rows_past))]
fn add_libraries(page: &mut Vec<u8>, alloc: Global, ranks: &[Ranked<'_>]) -> Result<(), AllocError>
    ensures { OnOk result (Adds page.old.items page.new.items (flat_map library_row ranks.now)) }
{
    for rank in ranks {
        add_library(page, alloc, rank)?;
    }
    Ok(())
}

/// The fifty libraries that are shown, and the others.
fn split<'r, 'a>(ranks: &'r [Ranked<'a>]) -> (&'r [Ranked<'a>], &'r [Ranked<'a>])
    ensures shown { result.0.now ≡ take 50 ranks.now }
    ensures rest { result.1.now ≡ drop 50 ranks.now }
{
    let count = ranks.len();
    if count < SHOWN {
        return ranks.split_at(count);
    }
    ranks.split_at(SHOWN)
}

/// The row of all other libraries together.
fn add_others(page: &mut Vec<u8>, alloc: Global, rest: &[Ranked<'_>]) -> Result<(), NoMemory>
    ensures { OnOk result (Adds page.old.items page.new.items
        (shares_row (codes "all others") (fold (λ sum r. together sum r.shares) no_shares rest.now))) }
{
    let others = sum_of(rest)?;
    add_shares(page, alloc, b"all others", others)?;
    Ok(())
}

fn add_rows(page: &mut Vec<u8>, alloc: Global, ranks: &[Ranked<'_>]) -> Result<(), NoMemory>
    ensures { OnOk result (Adds page.old.items page.new.items (library_rows ranks.now)) }
{
    let (shown, rest) = split(ranks);
    add_libraries(page, alloc, shown)?;
    add_others(page, alloc, rest)?;
    Ok(())
}

/// The rows of the libraries of figures.
fn add_figures(page: &mut Vec<u8>, alloc: Global, figures: &Figures) -> Result<(), NoMemory>
    ensures { OnOk result (Adds page.old.items page.new.items (library_rows (by_size figures.now.libraries))) }
{
    let ranks = by_size(alloc, figures)?;
    add_rows(page, alloc, &ranks)
}

/// The table of the libraries.
pub(crate) fn add_libraries_table(
    page: &mut Vec<u8>,
    alloc: Global,
    figures: &Figures,
) -> Result<(), NoMemory>
    ensures { OnOk result (Adds page.old.items page.new.items (libraries_table figures.now.libraries)) }
{
    start_table(
        page,
        b"Headings by library: the 50 with the most, and all others",
    )?;
    add_shares_columns(page, b"Code in keys")?;
    start_rows(page)?;
    add_figures(page, alloc, figures)?;
    end_table(page)?;
    Ok(())
}
