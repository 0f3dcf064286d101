ghost use Rattle.std.specs.Prelude.{◌≡◌, ◌++◌, IfOk, OnOk, filter, length, drop, slice_get, bytes_eq};
ghost use Rattle.std.specs.List.{list_any};
ghost use Rattle.marc_types.specs.Fields.{subfields_of};
ghost use Rattle.heading_fields.specs.Numbers.{without_blanks, key_text, is_naming, unnumbered, number_of};

use marc_types::{Field, Key, NoMemory, Subfield, Text, TryCopy};
use std::alloc::{AllocError, Global};

/// The code of the subfield that holds a record control number, `$0`.
const NUMBER: u8 = b'0';

const BLANK: u8 = b' ';

/// The byte at a place of a key's text: the code in parentheses, and the number.
#[tactic(auto, unfolding(crate::specs::Numbers::key_text))]
fn key_byte(key: &Key, place: usize) -> Option<u8>
    ensures { result ≡ slice_get (key_text key.now) place }
{
    let code = key.code.as_bytes();
    let number = key.number.as_bytes();
    if place == 0 {
        Some(b'(')
    } else if place <= code.len() {
        Some(code[place - 1])
    } else if place == code.len() + 1 {
        Some(b')')
    } else {
        number.get(place - 2 - code.len()).copied()
    }
}

/// Puts a key's text behind some bytes: the code in parentheses, and the number.
#[tactic(auto, unfolding(crate::specs::Numbers::key_text))]
pub fn add_key(text: &mut Vec<u8>, key: &Key) -> Result<(), AllocError>
    ensures { OnOk result (text.new.items ≡ text.old.items ++ key_text key.now) }
{
    text.push(b'(')?;
    text.extend_from_slice(key.code.as_bytes())?;
    text.push(b')')?;
    text.extend_from_slice(key.number.as_bytes())?;
    Ok(())
}

/// Whether a text without its blanks is the key's text.
fn is_key_text(text: &[u8], key: &Key) -> bool
    ensures { result ≡ bytes_eq (without_blanks text.now) (key_text key.now) }
{
    let mut place = 0;
    for byte in text {
        if *byte == BLANK {
            continue;
        }
        match key_byte(key, place) {
            Some(due) if due == *byte => place += 1,
            _ => return false,
        }
    }
    key_byte(key, place).is_none()
}

/// Whether the subfield is a `$0` that names the key.
#[tactic(auto, unfolding(crate::specs::Numbers::is_naming))]
pub fn is_number_of(subfield: &Subfield, key: &Key) -> bool
    ensures { result ≡ is_naming key.now subfield.now }
{
    subfield.code == NUMBER && is_key_text(subfield.text.as_bytes(), key)
}

/// Whether a `$0` of the field names the key: its text without blanks is the key's code in parentheses, and the number.
pub fn names(field: &Field, key: &Key) -> bool
    ensures { result ≡ list_any (is_naming key.now) (subfields_of field.now) }
{
    field
        .subfields()
        .iter()
        .any(|subfield| is_number_of(subfield, key))
}

/// The length of a key's text.
fn text_len(key: &Key) -> usize {
    key.code
        .len()
        .saturating_add(key.number.len())
        .saturating_add(2)
}

/// The `$0` of a key.
#[tactic(auto, unfolding(crate::specs::Numbers::key_text))]
pub(crate) fn number_of_key(alloc: Global, key: &Key) -> Result<Subfield, NoMemory>
    ensures { IfOk result (λ made. made ≡ number_of key.now) }
{
    let mut text = Text::with_capacity(alloc, text_len(key))?;
    text.push_str(alloc, "(")?;
    text.push_str(alloc, key.code.as_str())?;
    text.push_str(alloc, ")")?;
    text.push_str(alloc, key.number.as_str())?;
    Ok(Subfield { code: NUMBER, text })
}

/// Appends the subfields that aren't a `$0` naming the key.
pub(crate) fn append_unnumbered(
    alloc: Global,
    out: &mut Vec<Subfield>,
    subfields: &[Subfield],
    key: &Key,
) -> Result<(), NoMemory>
    ensures { OnOk result (out.new.items ≡ out.old.items ++ unnumbered key.now subfields.now) }
{
    for subfield in subfields {
        if !is_number_of(subfield, key) {
            out.push(subfield.copy(alloc)?)?;
        }
    }
    Ok(())
}
