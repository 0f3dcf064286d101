//! The lines of fields that await a key.
ghost use Rattle.std.specs.Prelude.{◌≡◌, map, is_some, OnOk};
ghost use Rattle.std.specs.Io.KnownBytes.{Appends};
ghost use Rattle.outside.specs.Fault.{HasWriteCause};
ghost use Rattle.outside.specs.Sink.{WritesFront};
ghost use Rattle.catalogue_rules.specs.Output.{awaits_line};
ghost use Rattle.ambiguity_report.specs.Beside.{row_lines, rows_lines};
ghost use Rattle.numbered_store.specs.Kept.{kept_record, shown_row};

use crate::beside::{Beside, write_record};
use crate::words::{LINE_FEED, add_key_word, begin_with_place};
use marc_types::{Class, Key, Tag, Tie};
use numbered_store::{RowMap, StoredRecord};
use outside::{Sink, WriteFault};
use std::alloc::{AllocError, Global};

impl Beside for Tie {
    ghost use Rattle.ambiguity_report.specs.Beside.{awaits_text};

    ghost field_line = { awaits_text };

    fn make_line(
        &self,
        class: Class,
        key: &Key,
        place: usize,
        tag: &Tag,
        text: &mut Vec<u8>,
    ) -> Result<(), AllocError> {
        let Some(awaited) = &self.awaits else {
            text.clear();
            return Ok(());
        };
        begin_with_place(text, "AWAITS", class, key, place, tag)?;
        add_key_word(text, awaited.key())?;
        text.push(LINE_FEED)?;
        Ok(())
    }
}

/// Writes the line of each field of the class that awaits a key, records in key order, fields ascending.
#[tactic(auto, using(outside::proofs::Fronts::writing_begun, outside::proofs::Fronts::writing_more, outside::proofs::Fronts::writing_failed, outside::proofs::Fronts::writing_done))]
pub(crate) fn write_awaits<K: Sink>(
    alloc: Global,
    class: Class,
    rows: &RowMap<'_>,
    text: &mut Vec<u8>,
    out: &mut K,
) -> Result<(), WriteFault>
    ensures bytes { OnOk result
        (Appends (K.written out.old) (K.written out.new) (rows_lines awaits_line class (map shown_row rows.now.entries))) }
    ensures front { WritesFront (K.written out.old) (K.written out.new)
        (rows_lines awaits_line class (map shown_row rows.now.entries)) }
    ensures tells { is_some (K.written out.new) ≡ is_some (K.written out.old) }
    ensures cause { HasWriteCause (K.faults out.old) (K.faults out.new) result }
{
    for (key, kept) in rows {
        write_awaiting(alloc, class, key, kept, text, out)?;
    }
    Ok(())
}

// The lines of a record's fields: none where all ties are blank.
#[tactic(auto, using(outside::proofs::Fronts::front_none, crate::proofs::Fields::blank_awaits))]
fn write_awaiting<K: Sink>(
    alloc: Global,
    class: Class,
    key: &Key,
    kept: &StoredRecord,
    text: &mut Vec<u8>,
    out: &mut K,
) -> Result<(), WriteFault>
    ensures bytes { OnOk result (Appends (K.written out.old) (K.written out.new) (row_lines awaits_line class (key.now, kept_record kept.now))) }
    ensures front { WritesFront (K.written out.old) (K.written out.new) (row_lines awaits_line class (key.now, kept_record kept.now)) }
    ensures tells { is_some (K.written out.new) ≡ is_some (K.written out.old) }
    ensures cause { HasWriteCause (K.faults out.old) (K.faults out.new) result }
{
    match kept.ties() {
        Some(ties) => write_record(alloc, class, key, kept, ties, text, out),
        None => Ok(()),
    }
}
