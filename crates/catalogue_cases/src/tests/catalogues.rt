//! Catalogues in memory, with entries that were committed in turn. A clause says only that nothing is staged, so that a test's
//! proof knows no more.
ghost use Rattle.std.specs.Prelude.{◌≡◌, ◌<◌, [], IfOk, IsTrue};
ghost use Rattle.marc_types.specs.Valid.{is_code};

use catalogue_core::{Catalogue, CoreFault};
use catalogue_rules::Steps;
use entry_record::Prepared;
use marc_types::{Limits, Receipt, RecordFault, Text, can_be_code};
use reading::prepare;
use std::alloc::Global;
use std::marker::Brand;
use std::process::Abort;
use std::sync::ledger::{Blank, Ledger};
use std::test::Fail;

/// A library's code, and a piece of its file.
pub(crate) type Piece = (&'static str, &'static [u8]);

pub(crate) fn item_of(rt: &impl Abort, alloc: Global, piece: &Piece) -> Result<Prepared, Fail> {
    let (code, bytes) = *piece;
    let library = Text::from_str(alloc, code)?;
    assert!(rt; can_be_code(library.as_bytes()));
    Ok(item_by(alloc, &library, bytes)?)
}

// Each call in a function of its own, since its clauses would be unfolded at each later goal.
fn item_by(alloc: Global, library: &Text, bytes: &[u8]) -> Result<Prepared, RecordFault>
    requires { IsTrue (is_code library.now) }
{
    prepare(alloc, bytes, library, 0, 1)
}

pub(crate) fn take<L: Ledger>(
    alloc: Global,
    core: &mut Catalogue,
    item: Prepared,
    steps: &mut Steps<L>,
) -> Result<Receipt, CoreFault>
    requires { core.old.staged ≡ [] }
    ensures { core.new.staged ≡ [] }
{
    core.commit(alloc, item, steps)
}

fn commit_all<L: Ledger>(
    rt: &impl Abort,
    alloc: Global,
    core: &mut Catalogue,
    pieces: &[Piece],
    steps: &mut Steps<L>,
) -> Result<(), Fail>
    requires { core.old.staged ≡ [] }
    ensures { core.new.staged ≡ [] }
{
    for piece in pieces {
        let item = item_of(rt, alloc, piece)?;
        assert!(rt; take(alloc, core, item, steps).is_ok());
    }
    Ok(())
}

fn counted<L: Ledger>(
    rt: &impl Abort,
    alloc: Global,
    pieces: &[Piece],
    blank: Blank,
) -> Result<Catalogue, Fail>
    requires name { blank.name ≡ L.name }
    requires parts { blank.parts ≡ L.parts }
    requires shared { 0 < blank.parts }
    ensures { IfOk result (λ core. core.staged ≡ []) }
{
    let mut steps = Steps::<L>::new(blank);
    let limits = Limits {
        entries: 9,
        bytes: 9_999,
    };
    let mut core = Catalogue::empty(alloc, limits);
    match commit_all(rt, alloc, &mut core, pieces, &mut steps) {
        Ok(()) => Ok(core),
        Err(fault) => Err(fault),
    }
}

/// A catalogue with the entries of these pieces; nobody counts the steps.
pub(crate) fn catalogue_of(
    rt: &impl Abort,
    alloc: Global,
    pieces: &[Piece],
) -> Result<Catalogue, Fail>
    ensures { IfOk result (λ core. core.staged ≡ []) }
{
    counted::<Brand>(rt, alloc, pieces, Blank::new(1))
}
