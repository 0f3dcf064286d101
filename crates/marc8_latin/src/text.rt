ghost use Rattle.std.specs.Prelude.{◌≡◌, ◌≢◌, ◌<◌, ◌≤◌, ◌*◌, [], length, slice_index, take, true, false, string_bytes, IfOk, IfErr};
ghost use Rattle.std.specs.List.{list_all};
ghost use Rattle.marc8_latin.specs.Subfields.{KeepsSubfields};
ghost use Rattle.marc8_latin.specs.Text.{IsText, IsFault};
ghost use Rattle.marc8_latin.specs.Progress.{is_plain};
ghost use Rattle.marc8_latin.specs.declared.charset.Charset.TheVariants.{BasicLatin};

use crate::charset::Charset;
use crate::fault::Marc8Fault;
use crate::part::{Designations, first_part};
use crate::plain::{plain_len, stand_as_themselves};
use crate::writer::Writer;
use marc_types::Text;
use std::alloc::Global;

/// The text of MARC-8 bytes, in UTF-8.
///
/// Subfield delimiters stand in the text as they stand in the bytes, each with its code behind it.
pub fn to_utf8(alloc: Global, bytes: &[u8]) -> Result<Text, Marc8Fault>
    requires { length bytes.now ≤ 99999 }
    ensures text { IfOk result (λ text. IsText bytes.now text) }
    ensures fault { IfErr result (λ fault. fault ≢ Marc8Fault.NoMemory → IsFault bytes.now fault) }

    // What follows from the text, for callers that cut it into subfields.
    ensures size { IfOk result (λ text. length text ≤ 3 * length bytes.now) }
    ensures subfields { IfOk result (λ text. KeepsSubfields bytes.now text) }
{
    if stand_as_themselves(bytes) {
        // Every byte is ASCII, so no second scan has to show that this is UTF-8.
        let text = unsafe { std::str::from_utf8_unchecked(bytes) };
        return Ok(Text::from_str(alloc, text)?);
    }
    convert(alloc, bytes)
}

/// The text, part for part.
fn convert(alloc: Global, bytes: &[u8]) -> Result<Text, Marc8Fault>
    requires { length bytes.now ≤ 99999 }
    ensures text { IfOk result (λ text. IsText bytes.now text) }
    ensures fault { IfErr result (λ fault. fault ≢ Marc8Fault.NoMemory → IsFault bytes.now fault) }
{
    // A character that isn't ASCII mostly takes two bytes.
    let mut writer = Writer::new(alloc, 2 * bytes.len())?;
    let mut sets = Designations::latin();
    let mut at = 0;
    while at < bytes.len() {
        let rest = &bytes[at..];
        let plain = plain_front(sets, &writer, rest);
        if plain > 0 {
            writer.put_plain(&rest[..plain])?;
            at += plain;
            continue;
        }
        match first_part(sets, rest) {
            Ok(front) => {
                writer.put(front.meaning)?;
                sets = sets.after(front.meaning);
                at += front.len;
            }
            Err(fault) => return Err(fault.moved(at as u32)),
        }
    }
    Ok(Text::from_string(writer.finish()?))
}

/// The number of bytes in front that can be written as they are.
fn plain_front(sets: Designations, writer: &Writer, rest: &[u8]) -> usize
    ensures within { result ≤ length rest.now }
    ensures plain { list_all is_plain (take result rest.now) ≡ true }
    ensures basic { 0 < result → sets.g0 ≡ BasicLatin }
    ensures settled { 0 < result → string_bytes writer.now.run ≡ [] }
    ensures all { sets.g0 ≡ BasicLatin → string_bytes writer.now.run ≡ []
        → result < length rest.now → is_plain (slice_index rest.now result) ≡ false }
{
    if matches!(sets.g0, Charset::BasicLatin) && writer.is_settled() {
        plain_len(rest)
    } else {
        0
    }
}
