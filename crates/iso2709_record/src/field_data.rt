ghost use Rattle.std.specs.Prelude.{◌≡◌, ◌≤◌, true, false, ℕ, List, length, IfOk, IsUtf8};
ghost use Rattle.marc_types.specs.Valid.{is_control_tag};
ghost use Rattle.marc_types.specs.declared.field.Subfield.{Subfield};
ghost use Rattle.iso2709_record.specs.Spelling.{Spells, IsFieldOf};
ghost use Rattle.iso2709_record.specs.Texts.{SpellsField};

use crate::blocks::DELIMITER;
use crate::subfields::first_subfield;
use marc_types::{Field, NoMemory, Subfield, Subfields, Tag, Text};
use std::alloc::Global;

/// How many delimiters stand there.
fn delimiters(bytes: &[u8]) -> usize
    ensures { result ≤ length bytes.now }
{
    bytes.iter().filter(|byte| **byte == DELIMITER).count()
}

/// The subfields that a text spells, in memory of exactly their number.
pub fn subfields_of(alloc: Global, text: &str) -> Result<Subfields, NoMemory>
    requires { (subfields : List Subfield) × Spells subfields text.now }
    ensures { IfOk result (λ subfields. Spells subfields text.now) }
{
    let mut rest = text.as_bytes();
    let mut subfields = Vec::with_capacity(alloc, delimiters(rest))?;
    while let Some(cut) = first_subfield(rest) {
        // What stands between two delimiters of a text is a text.
        let text = unsafe { std::str::from_utf8_unchecked(cut.text) };
        subfields.push(Subfield {
            code: cut.code,
            text: Text::from_str(alloc, text)?,
        })?;
        rest = cut.rest;
    }
    Ok(Subfields::from_vec(subfields))
}

/// Bytes that are known to be a text.
fn as_text(bytes: &[u8]) -> &str
    requires { IsUtf8 bytes.now }
    ensures { result.now ≡ bytes.now }
{
    unsafe { std::str::from_utf8_unchecked(bytes) }
}

fn control_field(alloc: Global, tag: Tag, area: &[u8]) -> Result<Field, NoMemory>
    requires control { is_control_tag tag ≡ true }
    requires spelled { SpellsField tag area.now }
    ensures { IfOk result (IsFieldOf tag area.now) }
{
    let text = Text::from_str(alloc, as_text(area))?;
    Ok(Field::Control { tag, text })
}

fn variable_field(alloc: Global, tag: Tag, area: &[u8]) -> Result<Field, NoMemory>
    requires variable { is_control_tag tag ≡ false }
    requires spelled { SpellsField tag area.now }
    ensures { IfOk result (IsFieldOf tag area.now) }
{
    let (indicators, behind) = area.split_at(2);
    let subs = subfields_of(alloc, as_text(behind))?;
    Ok(Field::Variable {
        tag,
        ind1: indicators[0],
        ind2: indicators[1],
        subs,
    })
}

/// The field of a tag whose data these bytes are.
pub fn field_from(alloc: Global, tag: Tag, area: &[u8]) -> Result<Field, NoMemory>
    requires { SpellsField tag area.now }
    ensures { IfOk result (IsFieldOf tag area.now) }
{
    if tag.is_control() {
        control_field(alloc, tag, area)
    } else {
        variable_field(alloc, tag, area)
    }
}
