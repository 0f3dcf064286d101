//! The lines of groups.
ghost use Rattle.std.specs.Prelude.{◌≡◌, ◌++◌, map, is_some, OnOk};
ghost use Rattle.std.specs.List.{flat_map};
ghost use Rattle.std.specs.Io.KnownBytes.{Appends};
ghost use Rattle.outside.specs.Fault.{HasCause};
ghost use Rattle.outside.specs.Sink.{WritesFront};
ghost use Rattle.heading_fields.specs.Numbers.{key_text};
ghost use Rattle.catalogue_rules.specs.Lines.{then_word, then_words};
ghost use Rattle.match_report.specs.Groups.{group_words, group_text, group_line, total_line, lines_of};

use crate::groups::Group;
use itoa::Buffer;
use outside::{Failed, Sink};
use packed_keys::PackedKey;

/// A piece, and another behind it.
#[tactic(auto, using(outside::proofs::Fronts::front_more, outside::proofs::Fronts::front_then, outside::proofs::Fronts::appends_then))]
fn write_both<K: Sink>(first: &[u8], second: &[u8], out: &mut K) -> Result<(), Failed>
    ensures bytes { OnOk result (Appends (K.written out.old) (K.written out.new) (first.now ++ second.now)) }
    ensures front { WritesFront (K.written out.old) (K.written out.new) (first.now ++ second.now) }
    ensures tells { is_some (K.written out.new) ≡ is_some (K.written out.old) }
    ensures cause { HasCause (K.faults out.old) (K.faults out.new) result }
{
    out.write_all(first)?;
    out.write_all(second)
}

/// The text of a key, behind a blank.
#[tactic(auto, unfolding(heading_fields::specs::Numbers::key_text), using(crate::proofs::Writes::code_front, crate::proofs::Writes::code_then, outside::proofs::Fronts::appends_then))]
fn write_key<K: Sink>(key: &PackedKey, out: &mut K) -> Result<(), Failed>
    ensures bytes { OnOk result (Appends (K.written out.old) (K.written out.new) (then_word (key_text key.now))) }
    ensures front { WritesFront (K.written out.old) (K.written out.new) (then_word (key_text key.now)) }
    ensures tells { is_some (K.written out.new) ≡ is_some (K.written out.old) }
    ensures cause { HasCause (K.faults out.old) (K.faults out.new) result }
{
    write_both(b" (", key.code(), out)?;
    write_both(b")", key.number(), out)
}

#[tactic(auto, using(outside::proofs::Fronts::writing_begun, outside::proofs::Fronts::writing_done))]
fn write_keys<K: Sink>(keys: &[&PackedKey], out: &mut K) -> Result<(), Failed>
    ensures bytes { OnOk result (Appends (K.written out.old) (K.written out.new) (then_words (map key_text (map (λ key. key.now) keys.now)))) }
    ensures front { WritesFront (K.written out.old) (K.written out.new) (then_words (map key_text (map (λ key. key.now) keys.now))) }
    ensures tells { is_some (K.written out.new) ≡ is_some (K.written out.old) }
    ensures cause { HasCause (K.faults out.old) (K.faults out.new) result }
{
    for key in keys {
        write_key(key, out)?;
    }
    Ok(())
}

/// A text behind a blank.
fn write_text<K: Sink>(text: &[u8], out: &mut K) -> Result<(), Failed>
    ensures bytes { OnOk result (Appends (K.written out.old) (K.written out.new) (then_word text.now)) }
    ensures front { WritesFront (K.written out.old) (K.written out.new) (then_word text.now) }
    ensures tells { is_some (K.written out.new) ≡ is_some (K.written out.old) }
    ensures cause { HasCause (K.faults out.old) (K.faults out.new) result }
{
    write_both(b" ", text, out)
}

/// The number and the keys of a group, each behind a blank.
#[tactic(auto, using(crate::proofs::Writes::word_front, crate::proofs::Writes::word_then, outside::proofs::Fronts::appends_then))]
fn write_words<K: Sink>(group: &Group<'_>, out: &mut K) -> Result<(), Failed>
    ensures bytes { OnOk result (Appends (K.written out.old) (K.written out.new) (group_words group.now)) }
    ensures front { WritesFront (K.written out.old) (K.written out.new) (group_words group.now) }
    ensures tells { is_some (K.written out.new) ≡ is_some (K.written out.old) }
    ensures cause { HasCause (K.faults out.old) (K.faults out.new) result }
{
    write_text(group.number.text(), out)?;
    write_keys(group.keys.as_slice(), out)
}

#[tactic(auto, using(outside::proofs::Fronts::front_more, outside::proofs::Fronts::front_then, outside::proofs::Fronts::appends_then))]
fn write_front<K: Sink>(group: &Group<'_>, out: &mut K) -> Result<(), Failed>
    ensures bytes { OnOk result (Appends (K.written out.old) (K.written out.new) (group_text group.now)) }
    ensures front { WritesFront (K.written out.old) (K.written out.new) (group_text group.now) }
    ensures tells { is_some (K.written out.new) ≡ is_some (K.written out.old) }
    ensures cause { HasCause (K.faults out.old) (K.faults out.new) result }
{
    out.write_all(group.number.word().as_bytes())?;
    write_words(group, out)
}

#[tactic(auto, using(outside::proofs::Fronts::front_more, outside::proofs::Fronts::front_then, outside::proofs::Fronts::appends_then))]
fn write_group<K: Sink>(group: &Group<'_>, out: &mut K) -> Result<(), Failed>
    ensures bytes { OnOk result (Appends (K.written out.old) (K.written out.new) (group_line group.now)) }
    ensures front { WritesFront (K.written out.old) (K.written out.new) (group_line group.now) }
    ensures tells { is_some (K.written out.new) ≡ is_some (K.written out.old) }
    ensures cause { HasCause (K.faults out.old) (K.faults out.new) result }
{
    write_front(group, out)?;
    out.write_all(b"\n")
}

/// A line for each group.
#[tactic(auto, using(outside::proofs::Fronts::writing_begun, outside::proofs::Fronts::writing_done))]
fn write_groups<K: Sink>(groups: &[Group<'_>], out: &mut K) -> Result<(), Failed>
    ensures bytes { OnOk result (Appends (K.written out.old) (K.written out.new) (flat_map group_line groups.now)) }
    ensures front { WritesFront (K.written out.old) (K.written out.new) (flat_map group_line groups.now) }
    ensures tells { is_some (K.written out.new) ≡ is_some (K.written out.old) }
    ensures cause { HasCause (K.faults out.old) (K.faults out.new) result }
{
    for group in groups {
        write_group(group, out)?;
    }
    Ok(())
}

/// The line that tells how many groups there are.
fn write_total<K: Sink>(groups: &[Group<'_>], out: &mut K) -> Result<(), Failed>
    ensures bytes { OnOk result (Appends (K.written out.old) (K.written out.new) (total_line groups.now)) }
    ensures front { WritesFront (K.written out.old) (K.written out.new) (total_line groups.now) }
    ensures tells { is_some (K.written out.new) ≡ is_some (K.written out.old) }
    ensures cause { HasCause (K.faults out.old) (K.faults out.new) result }
{
    let mut digits = Buffer::new();
    let count = digits.format(groups.len() as u128);
    out.write_all(b"TOTAL groups=")?;
    write_both(count.as_bytes(), b"\n", out)
}

/// A line for each group, and one that tells how many there are.
#[tactic(auto, unfolding(crate::specs::Groups::lines_of), using(outside::proofs::Fronts::front_more, outside::proofs::Fronts::front_then, outside::proofs::Fronts::appends_then))]
pub(crate) fn write_lines<K: Sink>(groups: &[Group<'_>], out: &mut K) -> Result<(), Failed>
    ensures bytes { OnOk result (Appends (K.written out.old) (K.written out.new) (lines_of groups.now)) }
    ensures front { WritesFront (K.written out.old) (K.written out.new) (lines_of groups.now) }
    ensures tells { is_some (K.written out.new) ≡ is_some (K.written out.old) }
    ensures cause { HasCause (K.faults out.old) (K.faults out.new) result }
{
    write_groups(groups, out)?;
    write_total(groups, out)
}
