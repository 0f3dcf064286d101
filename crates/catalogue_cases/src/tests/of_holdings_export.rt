ghost use Rattle.std.specs.Prelude.{◌≡◌, []};
ghost use Rattle.selection.specs.Selections.{IsCallable};

use super::catalogues::{Piece, catalogue_of};
use catalogue_core::Catalogue;
use holdings::{HoldingGroups, HoldingShelf, admit_holding};
use holdings_export::{Listing, ShelfCounts, WaitingHoldings, count, write_holdings};
use marc_types::{Key, NoMemory, Text};
use outside::Failed;
use outside_mem::MemSink;
use reading::read_record;
use selection::Selection;
use std::alloc::Global;
use std::process::Abort;
use std::test::Fail;

const B1: Piece = (
    "ULIB",
    b"00119nam a2200061 a 4500001000300000100003700003245001700040\x1eb1\x1e1 \x1faTwain, Mark,\x1fd1835-1910\x1feauthor.\x1e10\x1faRoughing it.\x1e\x1d",
);

const B2: Piece = (
    "ULIB",
    b"00081nam a2200049 a 4500001000300000100002800003\x1eb2\x1e1 \x1faTwain, Mark,\x1fd1835-1910\x1e\x1d",
);

const B9: Piece = (
    "ULIB",
    b"00041nam a2200037 a 4500001000300000\x1eb9\x1e\x1d",
);

const H1: &[u8] =
    b"00077nx  a22000611n 4500001000300000004000300003852000900006\x1eh1\x1eb1\x1e  \x1faULIB\x1e\x1d";

const H2: &[u8] =
    b"00077nx  a22000611n 4500001000300000004000300003852000900006\x1eh2\x1eb9\x1e  \x1faULIB\x1e\x1d";

/// The first record, its holding, and the second record.
const WITH_HOLDINGS: &[u8] =
    b"00119nam a2200061 a 4500001000300000100003700003245001700040\x1eb1\x1e1 \x1faTwain, Mark,\x1fd1835-1910\x1feauthor.\x1e10\x1faRoughing it.\x1e\x1d\
    00077nx  a22000611n 4500001000300000004000300003852000900006\x1eh1\x1eb1\x1e  \x1faULIB\x1e\x1d\
    00081nam a2200049 a 4500001000300000100002800003\x1eb2\x1e1 \x1faTwain, Mark,\x1fd1835-1910\x1e\x1d";

/// The record that came late, and its holding.
const LATE: &[u8] = b"00041nam a2200037 a 4500001000300000\x1eb9\x1e\x1d\
    00077nx  a22000611n 4500001000300000004000300003852000900006\x1eh2\x1eb9\x1e  \x1faULIB\x1e\x1d";

fn shelve(
    rt: &impl Abort,
    alloc: Global,
    shelf: &mut HoldingShelf,
    bytes: &[u8],
) -> Result<(), Fail> {
    let library = Text::from_str(alloc, "ULIB")?;
    let rec = read_record(alloc, bytes)?;
    match admit_holding(alloc, rec, &library) {
        Ok(holding) => Ok(shelf.put(alloc, holding)?),
        Err(_fault) => panic!(rt; "not admitted"),
    }
}

fn shelf_of(rt: &impl Abort, alloc: Global, pieces: &[&[u8]]) -> Result<HoldingShelf, Fail> {
    let mut shelf = HoldingShelf::new(alloc);
    for piece in pieces {
        shelve(rt, alloc, &mut shelf, piece)?;
    }
    Ok(shelf)
}

// Each call in a function of its own, since its clauses would be unfolded at each later goal.
fn listing_of<'a>(alloc: Global, core: &'a Catalogue) -> Result<Listing<'a>, NoMemory>
    requires { core.now.staged ≡ [] }
{
    Listing::of(alloc, core)
}

fn groups_of<'a>(alloc: Global, shelf: &'a HoldingShelf) -> Result<HoldingGroups<'a>, NoMemory> {
    HoldingGroups::of(alloc, shelf)
}

fn write<F: Fn(&Key) -> bool>(
    rows: Listing<'_>,
    groups: &HoldingGroups<'_>,
    selection: &Selection<F>,
    out: &mut MemSink,
) -> Result<(), Failed>
    requires { IsCallable F.Fn selection.now }
{
    write_holdings(rows, groups, selection, out)
}

// What is written of the keys that a closure keeps.
fn written<F: Fn(&Key) -> bool>(
    alloc: Global,
    core: &Catalogue,
    shelf: &HoldingShelf,
    keep: F,
) -> Result<Vec<u8>, Fail>
    requires settled { core.now.staged ≡ [] }
    requires callable { F.IsAlwaysCallable keep }
{
    let mut out = MemSink::new(alloc, Vec::new(alloc));
    let groups = groups_of(alloc, shelf)?;
    let rows = listing_of(alloc, core)?;
    write(rows, &groups, &Selection::new(keep), &mut out)?;
    Ok(out.into_bytes())
}

fn waiting_of<'a>(
    alloc: Global,
    core: &Catalogue,
    shelf: &'a HoldingShelf,
) -> Result<WaitingHoldings<'a>, NoMemory>
    requires { core.now.staged ≡ [] }
{
    WaitingHoldings::of(alloc, core, shelf)
}

fn write_waiting(waiting: &WaitingHoldings<'_>, out: &mut MemSink) -> Result<(), Failed> {
    waiting.write(out)
}

fn rest(alloc: Global, core: &Catalogue, shelf: &HoldingShelf) -> Result<Vec<u8>, Fail>
    requires { core.now.staged ≡ [] }
{
    let mut out = MemSink::new(alloc, Vec::new(alloc));
    let waiting = waiting_of(alloc, core, shelf)?;
    write_waiting(&waiting, &mut out)?;
    Ok(out.into_bytes())
}

fn counts_of(alloc: Global, core: &Catalogue, shelf: &HoldingShelf) -> Result<ShelfCounts, NoMemory>
    requires { core.now.staged ≡ [] }
{
    count(alloc, core, shelf)
}

fn has_counts(alloc: Global, core: &Catalogue, shelf: &HoldingShelf) -> Result<bool, Fail>
    requires { core.now.staged ≡ [] }
{
    let counts = ShelfCounts {
        attached: 1,
        waiting: 1,
    };
    Ok(counts_of(alloc, core, shelf)? == counts)
}

// The rest doesn't ask the selection.
fn assert_one_waits(
    rt: &impl Abort,
    alloc: Global,
    core: &Catalogue,
    shelf: &HoldingShelf,
) -> Result<(), Fail>
    requires { core.now.staged ≡ [] }
{
    let all = written(alloc, core, shelf, |_key: &Key| true)?;
    assert!(rt; all.as_slice() == WITH_HOLDINGS);
    let none = written(alloc, core, shelf, |key: &Key| key.code.as_str() == "DLC")?;
    assert!(rt; none.is_empty());
    assert!(rt; has_counts(alloc, core, shelf)?);
    let waiting = rest(alloc, core, shelf)?;
    assert!(rt; waiting.as_slice() == H2);
    Ok(())
}

#[test]
fn records_with_their_holdings(rt: HostRuntime) -> Result<(), Fail> {
    let shelf = shelf_of(&rt, rt.alloc(), &[H2, H1])?;
    let core = catalogue_of(&rt, rt.alloc(), &[B2, B1])?;
    assert_one_waits(&rt, rt.alloc(), &core, &shelf)
}

fn assert_none_waits(
    rt: &impl Abort,
    alloc: Global,
    core: &Catalogue,
    shelf: &HoldingShelf,
) -> Result<(), Fail>
    requires { core.now.staged ≡ [] }
{
    let late = written(alloc, core, shelf, |key: &Key| key.number.as_str() == "b9")?;
    assert!(rt; late.as_slice() == LATE);
    assert!(rt; rest(alloc, core, shelf)?.is_empty());
    Ok(())
}

/// What waited is given again, behind its record.
#[test]
fn the_rest_attaches(rt: HostRuntime) -> Result<(), Fail> {
    let shelf = shelf_of(&rt, rt.alloc(), &[H2])?;
    let core = catalogue_of(&rt, rt.alloc(), &[B2, B1, B9])?;
    assert_none_waits(&rt, rt.alloc(), &core, &shelf)
}
