//! The lines of authorities that are found under another's established form.
ghost use Rattle.std.specs.Prelude.{◌≡◌, map, is_some, OnOk};
ghost use Rattle.std.specs.List.{flat_map};
ghost use Rattle.std.specs.Io.KnownBytes.{Appends};
ghost use Rattle.outside.specs.Fault.{HasWriteCause};
ghost use Rattle.outside.specs.Sink.{WritesFront};
ghost use Rattle.catalogue_rules.specs.State.{linkable_authorities};
ghost use Rattle.catalogue_rules.specs.Output.{cross_lines};
ghost use Rattle.catalogue_tables.specs.Sharing.{shown_keys};
ghost use Rattle.ambiguity_report.specs.Beside.{cross_text};
ghost use Rattle.numbered_store.specs.Kept.{shown_row};

use crate::words::{LINE_FEED, add_key_word};
use catalogue_core::Engine;
use marc_types::Key;
use numbered_store::RowMap;
use outside::{Sink, WriteFault};
use std::alloc::{AllocError, Global};

fn make_line(text: &mut Vec<u8>, first: &Key, second: &Key) -> Result<(), AllocError>
    ensures { OnOk result (text.new.items ≡ cross_text first.now second.now) }
{
    text.clear();
    text.extend_from_slice(b"CROSS")?;
    add_key_word(text, first)?;
    add_key_word(text, second)?;
    text.push(LINE_FEED)?;
    Ok(())
}

/// Writes the line of two authorities, where the first is found under the other's established form.
#[tactic(auto, using(outside::proofs::Fronts::front_none))]
fn write_pair<K: Sink>(
    first: &Key,
    second: &Key,
    text: &mut Vec<u8>,
    out: &mut K,
) -> Result<(), WriteFault>
    ensures bytes { OnOk result
        (Appends (K.written out.old) (K.written out.new) (cross_text first.now second.now)) }
    ensures front { WritesFront (K.written out.old) (K.written out.new) (cross_text first.now second.now) }
    ensures tells { is_some (K.written out.new) ≡ is_some (K.written out.old) }
    ensures cause { HasWriteCause (K.faults out.old) (K.faults out.new) result }
{
    make_line(text, first, second)?;
    out.write_all(text)?;
    Ok(())
}

#[tactic(auto, using(outside::proofs::Fronts::writing_begun, outside::proofs::Fronts::writing_done))]
fn write_pairs<K: Sink>(
    first: &Key,
    others: &[&Key],
    text: &mut Vec<u8>,
    out: &mut K,
) -> Result<(), WriteFault>
    ensures bytes { OnOk result
        (Appends (K.written out.old) (K.written out.new) (flat_map (cross_text first.now) (shown_keys others.now))) }
    ensures front { WritesFront (K.written out.old) (K.written out.new)
        (flat_map (cross_text first.now) (shown_keys others.now)) }
    ensures tells { is_some (K.written out.new) ≡ is_some (K.written out.old) }
    ensures cause { HasWriteCause (K.faults out.old) (K.faults out.new) result }
{
    for second in others {
        write_pair(first, second, text, out)?;
    }
    Ok(())
}

/// Writes a line for each pair of authorities of which the first is found under the other's established form, in the order of
/// the first keys, then of the second.
#[tactic(auto, using(outside::proofs::Fronts::writing_begun, outside::proofs::Fronts::writing_stopped, outside::proofs::Fronts::writing_done))]
pub(crate) fn write_cross<K: Sink>(
    alloc: Global,
    engine: &Engine,
    authorities: &RowMap<'_>,
    text: &mut Vec<u8>,
    out: &mut K,
) -> Result<(), WriteFault>
    requires { map shown_row authorities.now.entries ≡ engine.now.state.authorities }
    ensures bytes { OnOk result
        (Appends (K.written out.old) (K.written out.new) (cross_lines (linkable_authorities engine.now.state))) }
    ensures front { WritesFront (K.written out.old) (K.written out.new)
        (cross_lines (linkable_authorities engine.now.state)) }
    ensures tells { is_some (K.written out.new) ≡ is_some (K.written out.old) }
    ensures cause { HasWriteCause (K.faults out.old) (K.faults out.new) result }
{
    engine.stays_valid();
    for (key, _kept) in authorities {
        let Ok(others) = engine.crossing(alloc, key) else {
            return Err(WriteFault::NoMemory);
        };
        write_pairs(key, &others, text, out)?;
    }
    Ok(())
}
