ghost use Rattle.std.specs.Prelude.{◌≡◌, []};

use super::catalogues::{Piece, catalogue_of};
use ambiguity_report::{write_report, write_state_report};
use catalogue_core::Catalogue;
use outside::WriteFault;
use outside_mem::MemSink;
use std::alloc::Global;
use std::process::Abort;
use std::test::Fail;

const SMITH: Piece = (
    "ULIB",
    b"00085nz  a2200061n  4500001000300000003000400003100001600007\x1en1\x1eDLC\x1e1 \x1faSmith, John\x1e\x1d",
);

const SMITH_AGAIN: Piece = (
    "ULIB",
    b"00086nz  a2200061n  4500001000300000003000400003100001700007\x1en2\x1eDLC\x1e1 \x1faSMITH, JOHN.\x1e\x1d",
);

const ROE_OR_SMITH: Piece = (
    "ULIB",
    b"00111nz  a2200073n  4500001000300000003000400003100001400007400001600021\x1en3\x1eDLC\x1e1 \x1faRoe, Jane\x1e1 \x1faSmith, John\x1e\x1d",
);

const DOE: Piece = (
    "ULIB",
    b"00083nz  a2200061n  4500001000300000003000400003100001400007\x1en5\x1eDLC\x1e1 \x1faDoe, Jane\x1e\x1d",
);

const DOE_REPLACED: Piece = (
    "ULIB",
    b"00094xz  a2200061n  4500001000300000003000400003682002500007\x1en5\x1eDLC\x1e  \x1fiReplaced by\x1f0(DLC)n7\x1e\x1d",
);

const BY_SMITH: Piece = (
    "ULIB",
    b"00070nam a2200049 a 4500001000300000100001700003\x1eb2\x1e1 \x1faSmith, John.\x1e\x1d",
);

const WITH_DOE: Piece = (
    "ULIB",
    b"00067nam a2200049 a 4500001000300000700001400003\x1eb6\x1e1 \x1faDoe, Jane\x1e\x1d",
);

// In a function of its own, since its clauses would be unfolded at each later goal.
fn write(alloc: Global, core: &Catalogue, out: &mut MemSink) -> Result<(), WriteFault>
    requires { core.now.staged ≡ [] }
{
    write_report(alloc, core, out)
}

pub(crate) fn report(alloc: Global, core: &Catalogue) -> Result<Vec<u8>, Fail>
    requires { core.now.staged ≡ [] }
{
    let mut out = MemSink::new(alloc, Vec::new(alloc));
    write(alloc, core, &mut out)?;
    Ok(out.into_bytes())
}

/// The report over the history and what is staged.
pub(crate) fn state_report(alloc: Global, core: &Catalogue) -> Result<Vec<u8>, Fail> {
    let mut out = MemSink::new(alloc, Vec::new(alloc));
    write_state_report(alloc, core.engine(), &mut out)?;
    Ok(out.into_bytes())
}

// What is reported when these pieces were committed in turn.
fn reported(rt: &impl Abort, alloc: Global, pieces: &[Piece]) -> Result<Vec<u8>, Fail> {
    let core = catalogue_of(rt, alloc, pieces)?;
    report(alloc, &core)
}

#[test]
fn ambiguous_and_shared(rt: HostRuntime) -> Result<(), Fail> {
    let report = reported(&rt, rt.alloc(), &[SMITH, SMITH_AGAIN, BY_SMITH])?;
    assert!(rt;
        report.as_slice()
            == b"AMBIGUOUS B (ULIB)b2 100 1 (DLC)n1 (DLC)n2\nSHARED (DLC)n1 (DLC)n2\nTOTAL authorities=2 bibliographic=1 linked=0 ambiguous=1 unlinked=0\n".as_slice()
    );
    Ok(())
}

#[test]
fn cross_and_awaits(rt: HostRuntime) -> Result<(), Fail> {
    let report = reported(
        &rt,
        rt.alloc(),
        &[SMITH, DOE, WITH_DOE, DOE_REPLACED, ROE_OR_SMITH],
    )?;
    assert!(rt;
        report.as_slice()
            == b"CROSS (DLC)n3 (DLC)n1\nAWAITS B (ULIB)b6 700 1 (DLC)n7\nTOTAL authorities=2 bibliographic=1 linked=0 ambiguous=0 unlinked=1\n".as_slice()
    );
    Ok(())
}
