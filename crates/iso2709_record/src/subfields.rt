ghost use Rattle.std.specs.Prelude.{◌≡◌, ◌≢◌, ℕ, ◌≤◌, [], ◌∷◌, ◌++◌, true, false, List, ◌==◌, length, take, drop, IfSome, IsNone, MatchOption};
ghost use Rattle.std.specs.List.{list_any};
ghost use Rattle.marc_types.specs.Valid.{is_graphic};
ghost use Rattle.marc_types.specs.declared.field.Subfield.{Subfield};
ghost use Rattle.iso2709_record.specs.Written.{delimiter};
ghost use Rattle.iso2709_record.specs.Faults.{starts_subfield, is_subfield_data};
ghost use Rattle.iso2709_record.specs.Spelling.{Spells, IsFirstOf};

use crate::blocks::DELIMITER;
use memchr::memchr;

/// A subfield that was cut off the front of a field's bytes, and the bytes behind it.
#[derive(Clone, Copy, Debug)]
pub struct Cut<'a> {
    pub code: u8,
    pub text: &'a [u8],
    pub rest: &'a [u8],
}

/// The code behind a delimiter, and the bytes behind both.
pub(crate) fn code_and_rest(bytes: &[u8]) -> Option<(u8, &[u8])>
    ensures { MatchOption result
        ((code : ℕ) (rest : List ℕ) → bytes.now ≢ delimiter ∷ code ∷ rest)
        (λ found. bytes.now ≡ delimiter ∷ found.0 ∷ found.1.now) }
{
    match bytes {
        [DELIMITER, code, rest @ ..] => Some((*code, rest)),
        _ => None,
    }
}

/// How many bytes stand before the first delimiter.
#[tactic(auto, using(crate::proofs::Cutting::text_end))]
pub(crate) fn text_len(bytes: &[u8]) -> usize
    ensures within { result ≤ length bytes.now }
    ensures text { list_any (λ b. b == delimiter) (take result bytes.now) ≡ false }
    ensures rest { starts_subfield (drop result bytes.now) ≡ true }
{
    memchr(DELIMITER, bytes).unwrap_or(bytes.len())
}

/// Cuts the first subfield off: a delimiter, a code, and the text up to the next delimiter. There is none where the bytes
/// don't begin with a delimiter and one more byte.
#[tactic(auto, using(crate::proofs::Cutting::cut_follows, crate::proofs::Cutting::cut_none, crate::proofs::Cutting::cut_first, crate::proofs::Cutting::cut_of_none))]
pub fn first_subfield(bytes: &[u8]) -> Option<Cut<'_>>
    // Whatever the bytes are, what was cut off and the rest are the bytes.
    ensures parts { IfSome result (λ cut. bytes.now ≡ delimiter ∷ cut.code ∷ (cut.text.now ++ cut.rest.now)) }
    ensures text { IfSome result (λ cut. list_any (λ b. b == delimiter) cut.text.now ≡ false) }

    // Of the bytes of subfields the rest is again of subfields, and nothing is cut off only at the end.
    ensures code { IfSome result (λ cut. is_subfield_data bytes.now ≡ true → is_graphic cut.code ≡ true) }
    ensures rest { IfSome result (λ cut. is_subfield_data bytes.now ≡ true → is_subfield_data cut.rest.now ≡ true) }
    ensures end { IsNone result → is_subfield_data bytes.now ≡ true → bytes.now ≡ [] }

    // It is the first of the subfields that the bytes spell.
    ensures first { (subfields : List Subfield) → Spells subfields bytes.now → IsFirstOf subfields result }
{
    let (code, after) = code_and_rest(bytes)?;
    let (text, rest) = after.split_at(text_len(after));
    Some(Cut { code, text, rest })
}
