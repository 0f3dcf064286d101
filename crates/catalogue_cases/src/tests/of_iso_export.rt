ghost use Rattle.std.specs.Prelude.{◌≡◌, []};
ghost use Rattle.selection.specs.Selections.{IsCallable};

use super::catalogues::{Piece, catalogue_of};
use catalogue_core::Catalogue;
use iso_export::write_catalogue;
use marc_types::Key;
use outside::WriteFault;
use outside_mem::MemSink;
use selection::Selection;
use std::alloc::Global;
use std::process::Abort;
use std::test::Fail;

const SMITH: &[u8] =
    b"00063nz  a2200049   4500001000300000100001000003\x1en1\x1e1 \x1faSmith\x1e\x1d";

/// A book and two authorities, not in their keys' order.
const PIECES: [Piece; 3] = [
    (
        "ULIB",
        b"00041na  a2200037   4500001000300000\x1eb3\x1e\x1d",
    ),
    (
        "ULIB",
        b"00061nz  a2200049   4500001000300000100000800003\x1en2\x1e1 \x1faDoe\x1e\x1d",
    ),
    ("DLC", SMITH),
];

const ALL: &[u8] = b"00063nz  a2200049   4500001000300000100001000003\x1en1\x1e1 \x1faSmith\x1e\x1d\
    00061nz  a2200049   4500001000300000100000800003\x1en2\x1e1 \x1faDoe\x1e\x1d\
    00041na  a2200037   4500001000300000\x1eb3\x1e\x1d";

// In a function of its own, since its clauses would be unfolded at each later goal.
fn write<F: Fn(&Key) -> bool>(
    alloc: Global,
    core: &Catalogue,
    selection: &Selection<F>,
    out: &mut MemSink,
) -> Result<(), WriteFault>
    requires settled { core.now.staged ≡ [] }
    requires callable { IsCallable F.Fn selection.now }
{
    write_catalogue(alloc, core, selection, out)
}

// What is exported of the keys that a closure keeps.
fn exported<F: Fn(&Key) -> bool>(alloc: Global, core: &Catalogue, keep: F) -> Result<Vec<u8>, Fail>
    requires settled { core.now.staged ≡ [] }
    requires callable { F.IsAlwaysCallable keep }
{
    let mut out = MemSink::new(alloc, Vec::new(alloc));
    write(alloc, core, &Selection::new(keep), &mut out)?;
    Ok(out.into_bytes())
}

fn assert_exports(rt: &impl Abort, alloc: Global, core: &Catalogue) -> Result<(), Fail>
    requires { core.now.staged ≡ [] }
{
    let all = exported(alloc, core, |_key: &Key| true)?;
    assert!(rt; all.as_slice() == ALL);
    let some = exported(alloc, core, |key: &Key| key.code.as_str() == "DLC")?;
    assert!(rt; some.as_slice() == SMITH);
    Ok(())
}

#[test]
fn selected_records_are_exported(rt: HostRuntime) -> Result<(), Fail> {
    let core = catalogue_of(&rt, rt.alloc(), &PIECES)?;
    assert_exports(&rt, rt.alloc(), &core)
}
