//! The records and entries of pieces. No clause says what they are, so that a test's proof needn't know.

ghost use Rattle.std.specs.Prelude.{IsTrue};
ghost use Rattle.marc_types.specs.Valid.{is_code};

use entry_record::Prepared;
use marc_types::{Record, RecordFault, Text, can_be_code};
use reading::{prepare, read_record};
use std::alloc::Global;
use std::process::Abort;

/// Mark Twain's authority record.
pub(crate) const TWAIN: &[u8] =
    b"00158nz  a2200073n  4500001001000000003000400010100002800014400004200042\x1en79021164\x1eDLC\x1e1 \x1faTwain, Mark,\x1fd1835-1910\x1e1 \x1faClemens, Samuel Langhorne,\x1fd1835-1910\x1e\x1d";

/// The entry of the first piece of a file of that library code.
pub(crate) fn prepared(
    rt: &impl Abort,
    alloc: Global,
    code: &str,
    piece: &[u8],
) -> Result<Prepared, RecordFault> {
    let library = Text::from_str(alloc, code)?;
    assert!(rt; can_be_code(library.as_bytes()));
    prepared_by(alloc, &library, piece)
}

fn prepared_by(alloc: Global, library: &Text, piece: &[u8]) -> Result<Prepared, RecordFault>
    requires { IsTrue (is_code library.now) }
{
    prepare(alloc, piece, library, 0, 1)
}

pub(crate) fn read(alloc: Global, piece: &[u8]) -> Result<Record, RecordFault> {
    read_record(alloc, piece)
}
