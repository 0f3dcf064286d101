ghost use Rattle.std.specs.Prelude.{◌≡◌, true, IfOk, IfErr};
ghost use Rattle.iso2709_record.specs.Layout.{layout_of, entry_count};
ghost use Rattle.iso2709_record.specs.Faults.{IsSound};
ghost use Rattle.iso2709_record.specs.Raw.{coding_at};
ghost use Rattle.reading.specs.Reading.{is_known_coding, IsReadAs};
ghost use Rattle.reading.specs.Answers.{AreFieldsUpTo, IsRefusedPiece};

use crate::field::read_field;
use crate::text::{MARC8, UTF8};
use iso2709_record::{Layout, check, coding_of, leader_of};
use marc_types::{Fields, Record, RecordFault, Refusal};
use std::alloc::Global;

/// Reads a piece of a file as a record, or tells the first reason for which it is none: of its length, its leader, its
/// directory, its fields, its coding and its text. Its text may be MARC-8 (Basic and Extended Latin) or UTF-8; the
/// record's is UTF-8.
pub fn read_record(alloc: Global, bytes: &[u8]) -> Result<Record, RecordFault>
    ensures read { IfOk result (λ rec. IsReadAs bytes.now rec.leader rec.fields) }
    ensures refused { IfErr result (IsRefusedPiece bytes.now) }
{
    let layout = match check(bytes) {
        Ok(layout) => layout,
        Err(refusal) => return Err(RecordFault::Refused(refusal)),
    };
    let coding = coding_of(bytes);
    if coding != MARC8 && coding != UTF8 {
        return Err(RecordFault::Refused(Refusal::UnknownCoding));
    }
    let fields = read_fields(alloc, bytes, &layout, coding)?;
    Ok(Record {
        leader: leader_of(bytes),
        fields,
    })
}

fn read_fields(
    alloc: Global,
    bytes: &[u8],
    layout: &Layout,
    coding: u8,
) -> Result<Fields, RecordFault>
    requires sound { IsSound bytes.now }
    requires layout { layout.now ≡ layout_of bytes.now }
    requires coding { coding ≡ coding_at bytes.now }
    requires known { is_known_coding coding ≡ true }
    ensures read { IfOk result (λ fields. AreFieldsUpTo bytes.now (entry_count bytes.now) fields) }
    ensures refused { IfErr result (IsRefusedPiece bytes.now) }
{
    let mut fields = Vec::with_capacity(alloc, layout.entries as usize)?;
    for entry in 0..layout.entries {
        match read_field(alloc, bytes, layout, coding, entry) {
            Ok(field) => fields.push(field)?,
            Err(fault) => return Err(fault),
        }
    }
    Ok(Fields::from_vec(fields))
}
