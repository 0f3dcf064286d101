ghost use Rattle.std.specs.Prelude.{◌≡◌, ◌<◌, ◌≤◌, length, slice_index, take, true, false};
ghost use Rattle.std.specs.List.{list_all};
ghost use Rattle.marc8_latin.specs.Progress.{is_plain, stand_as_themselves};

use crate::part::{DELIMITER, ESCAPE};

/// Whether a byte stands as itself wherever G0 is Basic Latin.
fn is_plain(byte: u8) -> bool
    ensures { result ≡ is_plain byte }
{
    byte < 0x80 && byte != ESCAPE && byte != DELIMITER
}

/// The number of plain bytes in front.
pub fn plain_len(bytes: &[u8]) -> usize
    ensures within { result ≤ length bytes.now }
    ensures plain { list_all is_plain (take result bytes.now) ≡ true }
    ensures all { result < length bytes.now → is_plain (slice_index bytes.now result) ≡ false }
{
    for (i, byte) in bytes.iter().enumerate() {
        if !is_plain(*byte) {
            return i;
        }
    }
    bytes.len()
}

/// Whether the bytes are their own text.
pub fn stand_as_themselves(bytes: &[u8]) -> bool
    ensures { result ≡ stand_as_themselves false bytes.now }
{
    let mut delimited = false;
    for byte in bytes {
        if delimited {
            if !byte.is_ascii_graphic() {
                return false;
            }
        } else if *byte >= 0x80 || *byte == ESCAPE {
            return false;
        }
        delimited = *byte == DELIMITER;
    }
    !delimited
}
