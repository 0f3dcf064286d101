ghost use Rattle.std.specs.Prelude.{◌≡◌, ◌^◌, ◌<◌, ◌≤◌, length, IsTrue};
ghost use Rattle.std.specs.List.{list_all};
ghost use Rattle.marc_types.specs.Valid.{is_digit};
ghost use Rattle.iso2709_record.specs.Layout.{number};

/// Whether each byte is a decimal digit.
pub(crate) fn are_digits(bytes: &[u8]) -> bool
    ensures { result ≡ list_all is_digit bytes.now }
{
    bytes.iter().all(|byte| (b'0'..=b'9').contains(byte))
}

/// The number that at most five decimal digits spell.
#[tactic(auto, using(crate::proofs::Numbers::digit_at, crate::proofs::Numbers::number_more, crate::proofs::Numbers::short_power, crate::proofs::Numbers::next_power))]
pub(crate) fn number(digits: &[u8]) -> u32
    requires digits { IsTrue (list_all is_digit digits.now) }
    requires short { length digits.now ≤ 5 }
    ensures value { result ≡ number digits.now }
    ensures below { result < 10 ^ length digits.now }
{
    let mut number = 0;
    for digit in digits {
        number = 10 * number + u32::from(*digit - b'0');
    }
    number
}
