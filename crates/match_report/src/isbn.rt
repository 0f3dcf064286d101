//! International Standard Book Numbers.
ghost use Rattle.std.specs.Prelude.{◌≡◌, ◌≤◌, ◌*◌, length, take, IsTrue, IfOk};
ghost use Rattle.std.specs.List.{list_all};
ghost use Rattle.marc_types.specs.Valid.{is_digit};
ghost use Rattle.match_report.specs.Isbn.{printed_number, value_of, weighted, is_check, has_prefix, is_isbn_ten, is_isbn_thirteen, check_digit, thirteen_of, isbn_of, isbn_of_printed};

use marc_types::{NoMemory, Text};
use std::alloc::Global;

const BLANK: u8 = b' ';

const HYPHEN: u8 = b'-';

/// What stands before the first blank, without hyphens.
fn printed_number(alloc: Global, text: &[u8]) -> Result<Vec<u8>, NoMemory>
    ensures { IfOk result (λ printed. printed.items ≡ printed_number text.now) }
{
    let printed = text
        .iter()
        .copied()
        .take_while(|byte| *byte != BLANK)
        .filter(|byte| *byte != HYPHEN)
        .collect(alloc)?;
    Ok(printed)
}

/// The value of a character: that of a digit, and 10 of X.
fn value_of(character: u8) -> u8
    ensures { result ≡ value_of character }
{
    match character {
        b'X' | b'x' => 10,
        _ => character.saturating_sub(b'0'),
    }
}

/// The sum of the characters' values, each times its weight.
fn weighted(weights: &[u8], text: &[u8]) -> u32
    requires { length weights.now ≤ 13 }
    ensures sum { result ≡ weighted weights.now text.now }
    ensures small { result ≤ 65025 * length weights.now }
{
    let [weight, weights @ ..] = weights else {
        return 0;
    };
    let [character, text @ ..] = text else {
        return 0;
    };
    u32::from(*weight) * u32::from(value_of(*character)) + weighted(weights, text)
}

fn is_check(character: u8) -> bool
    ensures { result ≡ is_check character }
{
    character.is_ascii_digit() || character == b'X' || character == b'x'
}

fn are_digits(text: &[u8]) -> bool
    ensures { result ≡ list_all is_digit text.now }
{
    text.iter().all(|character| character.is_ascii_digit())
}

/// Whether this is a number of the older form.
#[tactic(auto, unfolding(crate::specs::Isbn::is_isbn_ten))]
fn is_isbn_ten(text: &[u8]) -> bool
    ensures { result ≡ is_isbn_ten text.now }
{
    if text.len() != 10 {
        return false;
    }
    if !are_digits(&text[..9]) {
        return false;
    }
    is_check(text[9]) && weighted(&[10, 9, 8, 7, 6, 5, 4, 3, 2, 1], text) % 11 == 0
}

fn has_prefix(text: &[u8]) -> bool
    ensures { result ≡ has_prefix text.now }
{
    text.starts_with(b"978") || text.starts_with(b"979")
}

/// Whether this is a number of today's form.
#[tactic(auto, unfolding(crate::specs::Isbn::is_isbn_thirteen))]
fn is_isbn_thirteen(text: &[u8]) -> bool
    ensures { result ≡ is_isbn_thirteen text.now }
{
    if text.len() != 13 {
        return false;
    }
    if !are_digits(text) {
        return false;
    }
    has_prefix(text) && weighted(&[1, 3, 1, 3, 1, 3, 1, 3, 1, 3, 1, 3, 1], text) % 10 == 0
}

/// The check digit of twelve digits.
#[tactic(auto, unfolding(crate::specs::Isbn::check_digit))]
fn check_digit(digits: &[u8]) -> u8
    ensures { result ≡ check_digit digits.now }
{
    let sum = weighted(&[1, 3, 1, 3, 1, 3, 1, 3, 1, 3, 1, 3, 1], digits);
    b'0' + ((10 - sum % 10) % 10) as u8
}

/// A number of the older form in today's form.
#[tactic(auto, unfolding(crate::specs::Isbn::thirteen_of))]
fn thirteen_of(ten: &[u8]) -> [u8; 13]
    requires { length ten.now ≡ 10 }
    ensures { result ≡ thirteen_of ten.now }
{
    let mut digits = *b"9780000000000";
    digits[3..12].copy_from_slice(&ten[..9]);
    digits[12] = check_digit(&digits[..12]);
    digits
}

#[tactic(auto, using(crate::proofs::Digits::ten_long, crate::proofs::Digits::thirteen_long))]
fn isbn_of_printed(printed: &[u8]) -> Option<[u8; 13]>
    ensures { result ≡ isbn_of_printed printed.now }
{
    if is_isbn_ten(printed) {
        return Some(thirteen_of(printed));
    }
    if is_isbn_thirteen(printed) {
        return <[u8; 13]>::try_from(printed).ok();
    }
    None
}

/// The number of a text, in today's form.
pub fn isbn_of(alloc: Global, text: &Text) -> Result<Option<[u8; 13]>, NoMemory>
    ensures { IfOk result (λ found. found ≡ isbn_of text.now) }
{
    let printed = printed_number(alloc, text.as_bytes())?;
    Ok(isbn_of_printed(&printed))
}
