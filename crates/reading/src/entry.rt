ghost use Rattle.std.specs.Prelude.{◌≡◌, ◌≤◌, None, IsTrue, IfOk, IfErr};
ghost use Rattle.marc_types.specs.Valid.{is_code};
ghost use Rattle.entry_record.specs.Admission.{admission_refusal};
ghost use Rattle.entry_record.specs.Prepared.{new_entry};
ghost use Rattle.reading.specs.Reading.{IsReadAs};
ghost use Rattle.reading.specs.Answers.{IsNotPrepared};

use crate::record::read_record;
use entry_record::{Prepared, admit};
use marc_types::{RecordFault, Text};
use std::alloc::Global;

/// The entry of a piece of a file of that library code, as the piece of that ordinal, counted from 1, that the loader
/// brings. A piece is refused for the first reason that there is against it: as by [`read_record`], and then as by
/// [`entry_record::admit`].
pub fn prepare(
    alloc: Global,
    bytes: &[u8],
    code: &Text,
    loader: u32,
    ordinal: u64,
) -> Result<Prepared, RecordFault>
    requires library { IsTrue (is_code code.now) }
    requires ordinal { 1 ≤ ordinal }
    ensures read { IfOk result (λ made. IsReadAs bytes.now made.rec.leader made.rec.fields) }
    ensures taken { IfOk result (λ made. admission_refusal code.now made.rec.leader made.rec.fields ≡ None) }
    ensures entry { IfOk result (λ made. made ≡ new_entry code.now loader ordinal made.rec) }
    ensures refused { IfErr result (IsNotPrepared code.now bytes.now) }
{
    match read_record(alloc, bytes) {
        Ok(rec) => admit(alloc, rec, code, loader, ordinal),
        Err(fault) => Err(fault),
    }
}
