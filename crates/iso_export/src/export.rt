ghost use Rattle.std.specs.Prelude.{◌≡◌, [], OnOk, map};
ghost use Rattle.std.specs.Io.KnownBytes.{Appends};
ghost use Rattle.outside.specs.Fault.{HasCause, HasWriteCause};
ghost use Rattle.outside.specs.Sink.{WritesFront};
ghost use Rattle.iso2709_record.specs.Written.{record_bytes};
ghost use Rattle.catalogue_rules.specs.Settle.{state_of};
ghost use Rattle.catalogue_rules.specs.State.{fields_of};
ghost use Rattle.selection.specs.Selections.{ForSelected, IsCallable};
ghost use Rattle.iso_export.specs.Exports.{WritesExport, WritesExportFront, WritesRows, WritesRowsFront};
ghost use Rattle.iso_export.specs.Rows.{AreRowsOf};
ghost use Rattle.numbered_store.specs.Kept.{kept_record, shown_row};

use crate::rows::{ExportRows, rows_in_order};
use catalogue_core::{Catalogue, Engine};
use marc_types::Key;
use numbered_store::{RowMap, StoredRecord};
use outside::{Failed, Sink, WriteFault};
use selection::Selection;
use std::alloc::Global;

/// Writes the selected records of a catalogue: authorities first, each class in key order.
pub fn write_catalogue<F: Fn(&Key) -> bool, K: Sink>(
    alloc: Global,
    core: &Catalogue,
    selection: &Selection<F>,
    out: &mut K,
) -> Result<(), WriteFault>
    requires settled { core.now.staged ≡ [] }
    requires callable { IsCallable F.Fn selection.now }
    ensures written { ForSelected F.Fn selection.now (WritesExport (K.written out.old) (K.written out.new) (state_of core.now.history) result) }
    ensures front { ForSelected F.Fn selection.now (WritesExportFront (K.written out.old) (K.written out.new) (state_of core.now.history)) }
    ensures cause { HasWriteCause (K.faults out.old) (K.faults out.new) result }
{
    write_state(alloc, core.engine(), selection, out)
}

/// Writes the selected records of a state: authorities first, each class in key order.
#[tactic(auto, using(outside::proofs::Fronts::front_none))]
pub fn write_state<F: Fn(&Key) -> bool, K: Sink>(
    alloc: Global,
    engine: &Engine,
    selection: &Selection<F>,
    out: &mut K,
) -> Result<(), WriteFault>
    requires { IsCallable F.Fn selection.now }
    ensures written { ForSelected F.Fn selection.now (WritesExport (K.written out.old) (K.written out.new) engine.now.state result) }
    ensures front { ForSelected F.Fn selection.now (WritesExportFront (K.written out.old) (K.written out.new) engine.now.state) }
    ensures cause { HasWriteCause (K.faults out.old) (K.faults out.new) result }
{
    let Ok(rows) = rows_in_order(alloc, engine) else {
        return Err(WriteFault::NoMemory);
    };
    write_rows(engine, rows, selection, out)?;
    Ok(())
}

/// Writes the selected records of a state whose rows are in order. It takes no memory.
pub fn write_rows<F: Fn(&Key) -> bool, K: Sink>(
    engine: &Engine,
    rows: ExportRows<'_>,
    selection: &Selection<F>,
    out: &mut K,
) -> Result<(), Failed>
    requires rows { AreRowsOf engine.now.state rows }
    requires callable { IsCallable F.Fn selection.now }
    ensures written { ForSelected F.Fn selection.now (WritesExport (K.written out.old) (K.written out.new) engine.now.state result) }
    ensures front { ForSelected F.Fn selection.now (WritesExportFront (K.written out.old) (K.written out.new) engine.now.state) }
    ensures cause { HasCause (K.faults out.old) (K.faults out.new) result }
{
    // the clauses alone speak of the state
    let _engine = engine;
    let ExportRows {
        authorities,
        bibliographic,
    } = rows;
    write_class(authorities, selection, out)?;
    write_class(bibliographic, selection, out)
}

/// Writes the selected records of a class, in key order.
fn write_class<F: Fn(&Key) -> bool, K: Sink>(
    rows: RowMap<'_>,
    selection: &Selection<F>,
    out: &mut K,
) -> Result<(), Failed>
    requires { IsCallable F.Fn selection.now }
    ensures written { ForSelected F.Fn selection.now (WritesRows (K.written out.old) (K.written out.new) (map shown_row rows.entry.entries) result) }
    ensures front { ForSelected F.Fn selection.now (WritesRowsFront (K.written out.old) (K.written out.new) (map shown_row rows.entry.entries)) }
    ensures cause { HasCause (K.faults out.old) (K.faults out.new) result }
{
    for (key, kept) in rows {
        if selection.keeps(key) {
            write_record(kept, out)?;
        }
    }
    Ok(())
}

fn write_record<K: Sink>(kept: &StoredRecord, out: &mut K) -> Result<(), Failed>
    ensures bytes { OnOk result (Appends (K.written out.old) (K.written out.new)
        (record_bytes (kept_record kept.now).leader (fields_of (kept_record kept.now)))) }
    ensures front { WritesFront (K.written out.old) (K.written out.new)
        (record_bytes (kept_record kept.now).leader (fields_of (kept_record kept.now))) }
    ensures cause { HasCause (K.faults out.old) (K.faults out.new) result }
{
    out.write_all(kept.as_bytes())
}
