//! The lines of ambiguous fields.
ghost use Rattle.std.specs.Prelude.{◌≡◌, map, is_some, IfOk, OnOk};
ghost use Rattle.std.specs.Io.KnownBytes.{Appends};
ghost use Rattle.outside.specs.Fault.{HasWriteCause};
ghost use Rattle.outside.specs.Sink.{WritesFront};
ghost use Rattle.catalogue_rules.specs.State.{rows_of};
ghost use Rattle.ambiguity_report.specs.Beside.{ambiguous_in_class};
ghost use Rattle.ambiguity_report.specs.Totals.{AreTotals, HaveRoom};
ghost use Rattle.numbered_store.specs.Kept.{shown_row};

use crate::beside::{Beside, write_record};
use crate::standings::standings;
use crate::totals::Totals;
use crate::words::{LINE_FEED, add_key_words, begin_with_place};
use catalogue_core::{Engine, Standing};
use marc_types::{Class, Key, Tag};
use numbered_store::RowMap;
use outside::{Sink, WriteFault};
use std::alloc::{AllocError, Global};

impl Beside for Standing {
    ghost use Rattle.ambiguity_report.specs.Beside.{ambiguous_text};

    ghost field_line = { ambiguous_text };

    fn make_line(
        &self,
        class: Class,
        key: &Key,
        place: usize,
        tag: &Tag,
        text: &mut Vec<u8>,
    ) -> Result<(), AllocError> {
        let Standing::Ambiguous(candidates) = self else {
            text.clear();
            return Ok(());
        };
        begin_with_place(text, "AMBIGUOUS", class, key, place, tag)?;
        add_key_words(text, candidates.as_slice())?;
        text.push(LINE_FEED)?;
        Ok(())
    }
}

/// Writes the line of each ambiguous field of the class, records in key order, fields ascending, and counts how its fields stand.
#[tactic(auto, using(outside::proofs::Fronts::writing_begun, outside::proofs::Fronts::writing_stopped, outside::proofs::Fronts::writing_done))]
pub(crate) fn write_ambiguous<K: Sink>(
    alloc: Global,
    engine: &Engine,
    class: Class,
    rows: &RowMap<'_>,
    text: &mut Vec<u8>,
    out: &mut K,
) -> Result<Totals, WriteFault>
    requires { map shown_row rows.now.entries ≡ rows_of class engine.now.state }
    ensures bytes { OnOk result (Appends (K.written out.old) (K.written out.new) (ambiguous_in_class class engine.now.state)) }
    ensures front { WritesFront (K.written out.old) (K.written out.new) (ambiguous_in_class class engine.now.state) }
    ensures tells { is_some (K.written out.new) ≡ is_some (K.written out.old) }
    ensures cause { HasWriteCause (K.faults out.old) (K.faults out.new) result }
    ensures totals { IfOk result (AreTotals class engine.now.state) }
    ensures room { IfOk result HaveRoom }
{
    let mut totals = Totals::none();
    for (key, kept) in rows {
        let Ok(standings) = standings(alloc, engine, class, kept) else {
            return Err(WriteFault::NoMemory);
        };
        write_record(alloc, class, key, kept, &standings, text, out)?;
        totals = totals.with_record(&standings);
    }
    Ok(totals)
}
