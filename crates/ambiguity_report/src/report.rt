//! The report as a whole.
ghost use Rattle.std.specs.Prelude.{◌≡◌, [], is_some, IfOk, OnOk};
ghost use Rattle.std.specs.Io.KnownBytes.{Appends};
ghost use Rattle.outside.specs.Fault.{HasWriteCause};
ghost use Rattle.outside.specs.Sink.{WritesFront};
ghost use Rattle.catalogue_rules.specs.Settle.{state_of};
ghost use Rattle.catalogue_rules.specs.State.{State};
ghost use Rattle.catalogue_rules.specs.Output.{ambiguous_lines, awaiting_lines, report_of};
ghost use Rattle.ambiguity_report.specs.Rows.{AreRows};
ghost use Rattle.ambiguity_report.specs.Totals.{AreAllTotals};

use crate::ambiguous::write_ambiguous;
use crate::awaits::write_awaits;
use crate::cross::write_cross;
use crate::rows::{ReportRows, rows_in_order};
use crate::shared::write_shared;
use crate::totals::{Totals, write_totals};
use catalogue_core::{Catalogue, Engine};
use marc_types::Class;
use outside::{Sink, WriteFault};
use std::alloc::Global;

/// Writes the lines of all ambiguous fields, and counts how all fields stand.
#[tactic(auto, using(outside::proofs::Fronts::front_more, outside::proofs::Fronts::front_then, outside::proofs::Fronts::appends_then, crate::proofs::Counting::totals_together))]
fn write_all_ambiguous<K: Sink>(
    alloc: Global,
    engine: &Engine,
    rows: &ReportRows<'_>,
    text: &mut Vec<u8>,
    out: &mut K,
) -> Result<Totals, WriteFault>
    requires { AreRows engine.now.state rows.now }
    ensures bytes { OnOk result (Appends (K.written out.old) (K.written out.new) (ambiguous_lines engine.now.state)) }
    ensures front { WritesFront (K.written out.old) (K.written out.new) (ambiguous_lines engine.now.state) }
    ensures tells { is_some (K.written out.new) ≡ is_some (K.written out.old) }
    ensures cause { HasWriteCause (K.faults out.old) (K.faults out.new) result }
    ensures totals { IfOk result (AreAllTotals engine.now.state) }
{
    let (first, second) = (Class::Authority, Class::Bibliographic);
    let first = write_ambiguous(alloc, engine, first, &rows.authorities, text, out)?;
    let second = write_ambiguous(alloc, engine, second, &rows.bibliographic, text, out)?;
    Ok(Totals {
        linked: first.linked + second.linked,
        ambiguous: first.ambiguous + second.ambiguous,
        unlinked: first.unlinked + second.unlinked,
    })
}

fn write_all_awaits<K: Sink>(
    alloc: Global,
    rows: &ReportRows<'_>,
    text: &mut Vec<u8>,
    out: &mut K,
) -> Result<(), WriteFault>
    ensures bytes { (s : State) → AreRows s rows.now
        → OnOk result (Appends (K.written out.old) (K.written out.new) (awaiting_lines s)) }
    ensures front { (s : State) → AreRows s rows.now
        → WritesFront (K.written out.old) (K.written out.new) (awaiting_lines s) }
    ensures tells { is_some (K.written out.new) ≡ is_some (K.written out.old) }
    ensures cause { HasWriteCause (K.faults out.old) (K.faults out.new) result }
{
    write_awaits(alloc, Class::Authority, &rows.authorities, text, out)?;
    write_awaits(alloc, Class::Bibliographic, &rows.bibliographic, text, out)
}

/// Writes the report over the rows of both classes.
#[tactic(auto, unfolding(catalogue_rules::specs::Output::report_of))]
fn write_parts<K: Sink>(
    alloc: Global,
    engine: &Engine,
    rows: &ReportRows<'_>,
    text: &mut Vec<u8>,
    out: &mut K,
) -> Result<(), WriteFault>
    requires { AreRows engine.now.state rows.now }
    ensures bytes { OnOk result (Appends (K.written out.old) (K.written out.new) (report_of engine.now.state)) }
    ensures front { WritesFront (K.written out.old) (K.written out.new) (report_of engine.now.state) }
    ensures tells { is_some (K.written out.new) ≡ is_some (K.written out.old) }
    ensures cause { HasWriteCause (K.faults out.old) (K.faults out.new) result }
{
    let totals = write_all_ambiguous(alloc, engine, rows, text, out)?;
    write_shared(alloc, engine, &rows.authorities, text, out)?;
    write_cross(alloc, engine, &rows.authorities, text, out)?;
    write_all_awaits(alloc, rows, text, out)?;
    write_totals(engine, totals, text, out)
}

/// Writes the report of a state, as [`write_report`] does.
#[tactic(auto, using(outside::proofs::Fronts::front_none))]
pub fn write_state_report<K: Sink>(
    alloc: Global,
    engine: &Engine,
    out: &mut K,
) -> Result<(), WriteFault>
    ensures bytes { OnOk result (Appends (K.written out.old) (K.written out.new) (report_of engine.now.state)) }
    ensures front { WritesFront (K.written out.old) (K.written out.new) (report_of engine.now.state) }
    ensures tells { is_some (K.written out.new) ≡ is_some (K.written out.old) }
    ensures cause { HasWriteCause (K.faults out.old) (K.faults out.new) result }
{
    let Ok(rows) = rows_in_order(alloc, engine) else {
        return Err(WriteFault::NoMemory);
    };
    let mut text = Vec::new(alloc);
    write_parts(alloc, engine, &rows, &mut text, out)
}

/// Writes the report of the catalogue's state: a line for each ambiguous field, each form that authorities share, each pair of
/// authorities of which the first is found under the other's established form, each field that awaits a key, and one of totals.
/// Nothing may be staged. After a fault some front of the report was written, maybe none or all; `OutputFault` is the sink's.
pub fn write_report<K: Sink>(alloc: Global, core: &Catalogue, out: &mut K) -> Result<(), WriteFault>
    requires { core.now.staged ≡ [] }
    ensures bytes { OnOk result (Appends (K.written out.old) (K.written out.new) (report_of (state_of core.now.history))) }
    ensures front { WritesFront (K.written out.old) (K.written out.new) (report_of (state_of core.now.history)) }
    ensures tells { is_some (K.written out.new) ≡ is_some (K.written out.old) }
    ensures cause { HasWriteCause (K.faults out.old) (K.faults out.new) result }
{
    write_state_report(alloc, core.engine(), out)
}
