//! The key that a text names, as that of a `$0` does.
ghost use Rattle.std.specs.Prelude.{◌≡◌, Some, position, IfOk};
ghost use Rattle.heading_fields.specs.Numbers.{without_blanks};
ghost use Rattle.entry_record.specs.Authority.{is_right_parenthesis, is_valid_key, key_split_at_parenthesis, key_of_text, option_filter};

use crate::identity::graphic_text;
use marc_types::{Key, NoMemory, Text, can_be_code, can_be_number};
use std::alloc::Global;

fn right_parenthesis(text: &[u8]) -> Option<usize>
    ensures { result ≡ position is_right_parenthesis text.now }
{
    text.iter().position(|byte| *byte == b')')
}

/// A code up to the first right parenthesis, and the number behind it.
#[tactic(auto, using(crate::proofs::Numbered::place_within, crate::proofs::Numbered::place_before, crate::proofs::Numbered::place_after, crate::proofs::Numbered::nowhere_before, crate::proofs::Numbered::nowhere_after))]
fn split_at_parenthesis(text: &[u8]) -> (&[u8], &[u8])
    ensures code { result.0.now ≡ (key_split_at_parenthesis text.now).code }
    ensures number { result.1.now ≡ (key_split_at_parenthesis text.now).number }
{
    match right_parenthesis(text) {
        Some(place) => (&text[..place], &text[place + 1..]),
        None => (text, &[]),
    }
}

#[tactic(auto, unfolding(marc_types::specs::Valid::is_code, marc_types::specs::Valid::is_number), using(crate::proofs::Graphic::code_is_graphic))]
fn valid_key(alloc: Global, text: &[u8]) -> Result<Option<Key>, NoMemory>
    ensures { IfOk result (λ key. key ≡ option_filter is_valid_key (Some (key_split_at_parenthesis text.now))) }
{
    let (code, number) = split_at_parenthesis(text);
    if !can_be_code(code) || !can_be_number(number) {
        return Ok(None);
    }
    Ok(Some(Key {
        code: graphic_text(alloc, code)?,
        number: graphic_text(alloc, number)?,
    }))
}

/// The key whose text this is, apart from its blanks, if there is one: a code in parentheses, and a number.
#[tactic(auto, unfolding(crate::specs::Authority::key_of_text))]
pub fn key_of_text(alloc: Global, text: &Text) -> Result<Option<Key>, NoMemory>
    ensures { IfOk result (λ key. key ≡ key_of_text (without_blanks text.now)) }
{
    let filled = text.without_blanks(alloc)?;
    match filled.as_bytes() {
        [b'(', key_text @ ..] => valid_key(alloc, key_text),
        _ => Ok(None),
    }
}
