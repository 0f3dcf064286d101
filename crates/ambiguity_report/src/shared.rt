//! The lines of authorities that share an established form.
ghost use Rattle.std.specs.Prelude.{◌≡◌, ◌++◌, map, codes, is_some, OnOk};
ghost use Rattle.std.specs.Io.KnownBytes.{Appends};
ghost use Rattle.outside.specs.Fault.{HasWriteCause};
ghost use Rattle.outside.specs.Sink.{WritesFront};
ghost use Rattle.heading_fields.specs.Numbers.{key_text};
ghost use Rattle.catalogue_rules.specs.State.{linkable_authorities};
ghost use Rattle.catalogue_rules.specs.Lines.{line, then_words};
ghost use Rattle.catalogue_rules.specs.Output.{shared_line, shared_lines};
ghost use Rattle.catalogue_tables.specs.Sharing.{shown_keys};
ghost use Rattle.numbered_store.specs.Kept.{shown_row};

use crate::words::{LINE_FEED, add_key_word};
use catalogue_core::{Engine, is_least_of};
use marc_types::Key;
use numbered_store::RowMap;
use outside::{Sink, WriteFault};
use std::alloc::{AllocError, Global};

fn make_line(text: &mut Vec<u8>, group: &[&Key]) -> Result<(), AllocError>
    ensures { OnOk result (text.new.items ≡ line (codes "SHARED" ++ then_words (map key_text (shown_keys group.now)))) }
{
    text.clear();
    text.extend_from_slice(b"SHARED")?;
    for key in group {
        add_key_word(text, key)?;
    }
    text.push(LINE_FEED)?;
    Ok(())
}

/// Writes the line of a group of two or more, where this is its first authority.
#[tactic(auto, using(outside::proofs::Fronts::front_none))]
fn write_group<K: Sink>(
    own: &Key,
    group: &[&Key],
    text: &mut Vec<u8>,
    out: &mut K,
) -> Result<(), WriteFault>
    ensures bytes { OnOk result
        (Appends (K.written out.old) (K.written out.new) (shared_line own.now (shown_keys group.now))) }
    ensures front { WritesFront (K.written out.old) (K.written out.new) (shared_line own.now (shown_keys group.now)) }
    ensures tells { is_some (K.written out.new) ≡ is_some (K.written out.old) }
    ensures cause { HasWriteCause (K.faults out.old) (K.faults out.new) result }
{
    if is_least_of(own, group) {
        make_line(text, group)?;
        out.write_all(text)?;
    }
    Ok(())
}

/// Writes a line for each established form that two or more authorities share, the groups in the order of their least keys.
#[tactic(auto, using(outside::proofs::Fronts::writing_begun, outside::proofs::Fronts::writing_stopped, outside::proofs::Fronts::writing_done))]
pub(crate) fn write_shared<K: Sink>(
    alloc: Global,
    engine: &Engine,
    authorities: &RowMap<'_>,
    text: &mut Vec<u8>,
    out: &mut K,
) -> Result<(), WriteFault>
    requires { map shown_row authorities.now.entries ≡ engine.now.state.authorities }
    ensures bytes { OnOk result
        (Appends (K.written out.old) (K.written out.new) (shared_lines (linkable_authorities engine.now.state))) }
    ensures front { WritesFront (K.written out.old) (K.written out.new)
        (shared_lines (linkable_authorities engine.now.state)) }
    ensures tells { is_some (K.written out.new) ≡ is_some (K.written out.old) }
    ensures cause { HasWriteCause (K.faults out.old) (K.faults out.new) result }
{
    engine.stays_valid();
    for (key, _kept) in authorities {
        let Ok(group) = engine.sharing(alloc, key) else {
            return Err(WriteFault::NoMemory);
        };
        write_group(key, &group, text, out)?;
    }
    Ok(())
}
