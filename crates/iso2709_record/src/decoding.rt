ghost use Rattle.std.specs.Prelude.{◌≡◌, IfOk, OnOk, IfErr};
ghost use Rattle.iso2709_record.specs.Layout.{layout_of, entry_count};
ghost use Rattle.iso2709_record.specs.Faults.{IsSound, IsFirstFaultOf};
ghost use Rattle.iso2709_record.specs.Raw.{raw_fields, raw_record};

use crate::checking::check;
use crate::layout::Layout;
use crate::parts::{coding_of, field_of, leader_of};
use crate::raw::{RawField, RawFields, RawRecord};
use marc_types::{NoMemory, RecordFault, Sequence};
use outside::Bytes;
use std::alloc::Global;

fn fields_of(alloc: Global, bytes: &[u8], layout: &Layout) -> Result<RawFields, NoMemory>
    requires sound { IsSound bytes.now }
    requires layout { layout.now ≡ layout_of bytes.now }
    ensures { IfOk result (λ fields. fields ≡ raw_fields bytes.now (entry_count bytes.now)) }
{
    let mut fields = Vec::with_capacity(alloc, layout.entries as usize)?;
    for entry in 0..layout.entries {
        let (tag, area) = field_of(bytes, layout, entry);
        let area = Bytes::from_vec(Vec::from_slice(alloc, area)?);
        fields.push(RawField { tag, area })?;
    }
    Ok(Sequence::from_vec(fields))
}

/// The record that the bytes hold, before its text is read; refused as by [`check`].
pub fn decode(alloc: Global, bytes: &[u8]) -> Result<RawRecord, RecordFault>
    ensures record { IfOk result (λ raw. raw ≡ raw_record bytes.now) }
    ensures sound { OnOk result (IsSound bytes.now) }
    ensures refused { IfErr result (IsFirstFaultOf bytes.now) }
{
    let layout = check(bytes).map_err(RecordFault::Refused)?;
    Ok(RawRecord {
        leader: leader_of(bytes),
        coding: coding_of(bytes),
        fields: fields_of(alloc, bytes, &layout)?,
    })
}
