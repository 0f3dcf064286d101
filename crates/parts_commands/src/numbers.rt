//! Numbers in the last line of a report.
ghost use Rattle.std.specs.Prelude.{◌≡◌, ◌++◌, ◌∷◌, ◌<◌, ◌≤◌, ◌^◌, ℕ, List, length};
ghost use Rattle.std.specs.Fmt.{decimal};
ghost use Rattle.std.specs.List.{prefix_len};
ghost use Rattle.marc_types.specs.Valid.{is_digit};
ghost use Rattle.catalogue_parts.specs.Joined.{line_of_totals};
ghost use Rattle.catalogue_parts.specs.declared.totals.Totals.{Totals};
ghost use Rattle.parts_commands.specs.Reports.{AreSmall};

use catalogue_parts::Totals;
use std::str;

/// How many digits stand in front.
fn digits_in_front(bytes: &[u8]) -> usize
    ensures count { result ≡ prefix_len is_digit bytes.now }
    ensures within { result ≤ length bytes.now }
{
    bytes
        .iter()
        .take_while(|byte| (b'0'..=b'9').contains(*byte))
        .count()
}

/// The number that digits spell, of those that 64 bits hold.
fn value_of(digits: &[u8]) -> u64
    ensures { (number : ℕ) → digits.now ≡ decimal number → number < 2 ^ 64 → result ≡ number }
{
    match str::from_utf8(digits) {
        Ok(text) => match text.parse::<u64>() {
            Ok(number) => number,
            Err(_) => 0,
        },
        Err(_) => 0,
    }
}

/// What stands behind so many bytes.
fn behind(bytes: &[u8], count: usize) -> &[u8]
    ensures { (front rest : List ℕ) → bytes.now ≡ front ++ rest → count ≡ length front → result.now ≡ rest }
{
    &bytes[count.min(bytes.len())..]
}

/// The number that stands behind so many bytes, where no digit follows it, and what stands behind the number.
fn number_behind(bytes: &[u8], count: usize) -> (u64, &[u8])
    ensures { (front rest : List ℕ) (number next : ℕ) → bytes.now ≡ front ++ decimal number ++ next ∷ rest → count ≡ length front
        → number < 2 ^ 64 → next < 48 → (result.0 ≡ number) × (result.1.now ≡ next ∷ rest) }
{
    let bytes = behind(bytes, count);
    let len = digits_in_front(bytes);
    (value_of(&bytes[..len]), &bytes[len..])
}

/// The numbers of the line that tells them. Of any other bytes it gives some numbers.
pub(crate) fn totals_in(line: &[u8]) -> Totals
    ensures small { AreSmall result }
    ensures again { (t : Totals) → AreSmall t → line.now ≡ line_of_totals t → result ≡ t }
{
    let (authorities, rest) = number_behind(line, "TOTAL authorities=".len());
    let (bibliographic, rest) = number_behind(rest, " bibliographic=".len());
    let (linked, rest) = number_behind(rest, " linked=".len());
    let (ambiguous, rest) = number_behind(rest, " ambiguous=".len());
    let (unlinked, _) = number_behind(rest, " unlinked=".len());
    Totals {
        authorities,
        bibliographic,
        linked,
        ambiguous,
        unlinked,
    }
}
