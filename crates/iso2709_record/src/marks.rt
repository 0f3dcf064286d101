ghost use Rattle.std.specs.Prelude.{◌≡◌, ◌≤◌, ◌==◌, true, length, not};
ghost use Rattle.std.specs.List.{list_any, list_all};
ghost use Rattle.marc_types.specs.Valid.{is_printable, is_alphanumeric};
ghost use Rattle.iso2709_record.specs.Written.{delimiter};
ghost use Rattle.iso2709_record.specs.Faults.{ends_once, is_control_data, starts_subfield, codes_follow, is_subfield_data, is_variable_data};

use crate::blocks::DELIMITER;
use crate::subfields::{code_and_rest, text_len};
use marc_types::is_printable_byte;
use memchr::memchr;

pub(crate) fn are_printable(bytes: &[u8]) -> bool
    ensures { result ≡ list_all is_printable bytes.now }
{
    bytes.iter().all(|byte| is_printable_byte(*byte))
}

pub(crate) fn are_alphanumeric(bytes: &[u8]) -> bool
    ensures { result ≡ list_all is_alphanumeric bytes.now }
{
    bytes.iter().all(|byte| byte.is_ascii_alphanumeric())
}

/// Whether the last byte is the mark, and no earlier byte is.
#[tactic(auto, using(crate::proofs::Endings::ends_once_first, crate::proofs::Endings::ends_once_none))]
pub(crate) fn ends_once(mark: u8, bytes: &[u8]) -> bool
    ensures { result ≡ ends_once mark bytes.now }
{
    match memchr(mark, bytes) {
        Some(place) => place + 1 == bytes.len(),
        None => false,
    }
}

/// Whether some byte is a delimiter.
fn has_delimiter(bytes: &[u8]) -> bool
    ensures { result ≡ list_any (λ b. b == delimiter) bytes.now }
{
    bytes.iter().any(|byte| *byte == DELIMITER)
}

/// Whether no byte is a delimiter.
#[tactic(auto, unfolding(crate::specs::Faults::is_control_data))]
pub(crate) fn is_control_data(bytes: &[u8]) -> bool
    ensures { result ≡ is_control_data bytes.now }
{
    !has_delimiter(bytes)
}

/// The bytes from the first delimiter on.
#[tactic(auto, using(crate::proofs::Cutting::behind_text))]
fn behind_text(bytes: &[u8]) -> &[u8]
    ensures starts { starts_subfield result.now ≡ true }
    ensures follow { codes_follow result.now ≡ codes_follow bytes.now }
    ensures within { length result.now ≤ length bytes.now }
{
    let (_, rest) = bytes.split_at(text_len(bytes));
    rest
}

/// Whether each delimiter is followed by a code. Delimiters are few, so they are sought and not each byte looked at.
#[tactic(auto, using(crate::proofs::Cutting::code_follows, crate::proofs::Cutting::code_fails, crate::proofs::Cutting::codes_end))]
fn codes_follow(bytes: &[u8]) -> bool
    ensures { result ≡ codes_follow bytes.now }
{
    let mut rest = behind_text(bytes);
    while let Some((code, after)) = code_and_rest(rest) {
        if !code.is_ascii_graphic() {
            return false;
        }
        rest = behind_text(after);
    }
    rest.is_empty()
}

/// Whether there is no byte, or the first is a delimiter.
fn starts_subfield(bytes: &[u8]) -> bool
    ensures { result ≡ starts_subfield bytes.now }
{
    match bytes {
        [] => true,
        [first, ..] => *first == DELIMITER,
    }
}

#[tactic(auto, unfolding(crate::specs::Faults::is_subfield_data))]
fn is_subfield_data(bytes: &[u8]) -> bool
    ensures { result ≡ is_subfield_data bytes.now }
{
    starts_subfield(bytes) && codes_follow(bytes)
}

/// Whether two indicators and subfields are all that stands there.
#[tactic(auto, unfolding(crate::specs::Faults::is_variable_data))]
pub(crate) fn is_variable_data(bytes: &[u8]) -> bool
    ensures { result ≡ is_variable_data bytes.now }
{
    bytes.len() >= 2 && are_printable(&bytes[..2]) && is_subfield_data(&bytes[2..])
}
