ghost use Rattle.std.specs.Prelude.{◌≡◌};
ghost use Rattle.iso2709_record.specs.Written.{digit, entry_of, leader_of};

use marc_types::{Leader, Tag};

pub(crate) const RECORD_TERMINATOR: u8 = 0x1d;

pub(crate) const FIELD_TERMINATOR: u8 = 0x1e;

pub(crate) const DELIMITER: u8 = 0x1f;

/// The character of the last decimal digit.
fn digit(number: u64) -> u8
    ensures { result ≡ digit number }
{
    b'0' + (number % 10) as u8
}

/// The leader in its written form, of a record of that length and base address: the record's own bytes of it, with the
/// coding `a` for UTF-8.
#[tactic(auto, unfolding(crate::specs::Written::five_digits))]
pub fn leader_block(leader: &Leader, size: u64, base: u64) -> [u8; 24]
    ensures { result ≡ leader_of leader.now size base }
{
    [
        digit(size / 10_000),
        digit(size / 1_000),
        digit(size / 100),
        digit(size / 10),
        digit(size),
        leader.status,
        leader.rtype,
        leader.level,
        leader.control,
        b'a',
        b'2',
        b'2',
        digit(base / 10_000),
        digit(base / 1_000),
        digit(base / 100),
        digit(base / 10),
        digit(base),
        leader.encoding,
        leader.form,
        leader.linked,
        b'4',
        b'5',
        b'0',
        b'0',
    ]
}

/// The directory entry of a field of that length, which starts so many bytes behind the base address.
#[tactic(auto, unfolding(crate::specs::Written::four_digits, crate::specs::Written::five_digits))]
pub fn entry_block(tag: &Tag, len: u64, start: u64) -> [u8; 12]
    ensures { result ≡ entry_of tag.now len start }
{
    [
        tag.a,
        tag.b,
        tag.c,
        digit(len / 1_000),
        digit(len / 100),
        digit(len / 10),
        digit(len),
        digit(start / 10_000),
        digit(start / 1_000),
        digit(start / 100),
        digit(start / 10),
        digit(start),
    ]
}
