//! What is written of a catalogue's records and a shelf of holdings.
ghost use Rattle.std.specs.Prelude.{OnOk, map};
ghost use Rattle.std.specs.Io.KnownBytes.{Appends};
ghost use Rattle.outside.specs.Fault.{HasCause};
ghost use Rattle.outside.specs.Sink.{WritesFront};
ghost use Rattle.selection.specs.Selections.{ForSelected, IsCallable};
ghost use Rattle.holdings_export.specs.Output.{with_holdings, written_holdings, lent_shelf};
ghost use Rattle.holdings_export.specs.Written.{WritesHoldings, WritesHoldingsFront, WritesRows, WritesRowsFront};
ghost use Rattle.numbered_store.specs.Kept.{kept_record, shown_row};

use crate::listing::Listing;
use holdings::HoldingGroups;
use marc_types::Key;
use numbered_store::{RowMap, StoredRecord};
use outside::{Failed, Sink};
use selection::Selection;

/// Writes the holdings of the record under a key, where there are groups of them.
fn write_group<K: Sink>(
    key: &Key,
    groups: Option<&HoldingGroups<'_>>,
    out: &mut K,
) -> Result<(), Failed>
    ensures bytes { OnOk result (Appends (K.written out.old) (K.written out.new) (written_holdings key.now (lent_shelf groups.entry))) }
    ensures front { WritesFront (K.written out.old) (K.written out.new) (written_holdings key.now (lent_shelf groups.entry)) }
    ensures cause { HasCause (K.faults out.old) (K.faults out.new) result }
{
    match groups {
        Some(groups) => groups.write_group(key, out),
        None => Ok(()),
    }
}

/// Writes a record, and its holdings behind it.
#[tactic(auto, using(outside::proofs::Fronts::front_more, outside::proofs::Fronts::front_then, outside::proofs::Fronts::appends_then))]
fn write_record<K: Sink>(
    key: &Key,
    kept: &StoredRecord,
    groups: Option<&HoldingGroups<'_>>,
    out: &mut K,
) -> Result<(), Failed>
    ensures bytes { OnOk result (Appends (K.written out.old) (K.written out.new)
        (with_holdings (lent_shelf groups.entry) (key.now, kept_record kept.now))) }
    ensures front { WritesFront (K.written out.old) (K.written out.new)
        (with_holdings (lent_shelf groups.entry) (key.now, kept_record kept.now)) }
    ensures cause { HasCause (K.faults out.old) (K.faults out.new) result }
{
    out.write_all(kept.as_bytes())?;
    write_group(key, groups, out)
}

/// Writes the selected records of one class in the order of the rows, each with its holdings behind it, where there are groups of them.
fn write_rows<F: Fn(&Key) -> bool, K: Sink>(
    rows: RowMap<'_>,
    groups: Option<&HoldingGroups<'_>>,
    selection: &Selection<F>,
    out: &mut K,
) -> Result<(), Failed>
    requires { IsCallable F.Fn selection.now }
    ensures written { ForSelected F.Fn selection.now
        (WritesRows (K.written out.old) (K.written out.new) groups.entry (map shown_row rows.entry.entries) result) }
    ensures front { ForSelected F.Fn selection.now
        (WritesRowsFront (K.written out.old) (K.written out.new) groups.entry (map shown_row rows.entry.entries)) }
    ensures cause { HasCause (K.faults out.old) (K.faults out.new) result }
{
    for (key, kept) in rows {
        if selection.keeps(key) {
            write_record(key, kept, groups, out)?;
        }
    }
    Ok(())
}

/// Writes the selected authorities of a listing, and then the selected bibliographic records, each with its holdings behind
/// it, whatever keys those have. All are in key order. After `Failed` some front of that was written.
pub fn write_holdings<F: Fn(&Key) -> bool, K: Sink>(
    rows: Listing<'_>,
    groups: &HoldingGroups<'_>,
    selection: &Selection<F>,
    out: &mut K,
) -> Result<(), Failed>
    requires { IsCallable F.Fn selection.now }
    ensures written { ForSelected F.Fn selection.now
        (WritesHoldings (K.written out.old) (K.written out.new) rows.entry groups.now result) }
    ensures front { ForSelected F.Fn selection.now
        (WritesHoldingsFront (K.written out.old) (K.written out.new) rows.entry groups.now) }
    ensures cause { HasCause (K.faults out.old) (K.faults out.new) result }
{
    let Listing {
        authorities,
        bibliographic,
    } = rows;
    write_rows(authorities, None, selection, out)?;
    write_rows(bibliographic, Some(groups), selection, out)
}
