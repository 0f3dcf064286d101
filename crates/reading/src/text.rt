ghost use Rattle.std.specs.Prelude.{◌≡◌, ◌≢◌, ◌≤◌, ◌*◌, true, length, IfOk, IfErr};
ghost use Rattle.marc8_latin.specs.Progress.{place_of};
ghost use Rattle.reading.specs.Reading.{is_known_coding, IsTextIn, IsFaultIn};
ghost use Rattle.reading.specs.Answers.{IsRefusedText};
ghost use Rattle.reading.specs.FieldTexts.{bytes_of};

use marc_types::{NoMemory, RecordFault, Refusal, Text};
use marc8_latin::{Marc8Fault, to_utf8};
use std::alloc::Global;

/// The coding of MARC-8, in leader byte 09.
pub(crate) const MARC8: u8 = b' ';

/// The coding of UTF-8.
pub(crate) const UTF8: u8 = b'a';

/// A field's text: UTF-8 stands in the piece itself, and MARC-8 was converted.
#[derive(Drop)]
pub(crate) enum FieldText<'a> {
    Standing(&'a str),
    Converted(Text),
}

impl FieldText<'_> {
    pub(crate) fn as_str(&self) -> &str
        ensures { result.now ≡ bytes_of self.now }
    {
        match self {
            FieldText::Standing(text) => text,
            FieldText::Converted(text) => text.as_str(),
        }
    }

    pub(crate) fn into_text(self, alloc: Global) -> Result<Text, NoMemory>
        ensures { IfOk result (λ text. text ≡ bytes_of self.entry) }
    {
        match self {
            FieldText::Standing(text) => Text::from_str(alloc, text),
            FieldText::Converted(text) => Ok(text),
        }
    }
}

/// The text that bytes are in a coding, or its first fault.
#[tactic(auto, using(crate::proofs::Texts::marc8_text, crate::proofs::Texts::marc8_fault, crate::proofs::Texts::utf8_text, crate::proofs::Texts::utf8_fault, crate::proofs::Texts::marc8_place, std::proofs::lemmas::Str::utf8_valid_len_le))]
fn text_in(alloc: Global, coding: u8, bytes: &[u8]) -> Result<FieldText<'_>, Marc8Fault>
    requires short { length bytes.now ≤ 99999 }
    requires known { is_known_coding coding ≡ true }
    ensures text { IfOk result (λ text. IsTextIn coding bytes.now (bytes_of text)) }
    ensures fault { IfErr result (λ fault. fault ≢ Marc8Fault.NoMemory → IsFaultIn coding bytes.now fault) }
    ensures place { IfErr result (λ fault. place_of fault ≤ 100000) }
    ensures size { IfOk result (λ text. length (bytes_of text) ≤ 3 * length bytes.now) }
{
    if coding == MARC8 {
        return Ok(FieldText::Converted(to_utf8(alloc, bytes)?));
    }
    match std::str::from_utf8(bytes) {
        Ok(text) => Ok(FieldText::Standing(text)),
        Err(error) => Err(Marc8Fault::BadByte(error.valid_up_to() as u32)),
    }
}

/// The text that bytes of an entry are, or the refusal of its first fault. The text begins so far behind the entry's first byte.
pub(crate) fn text_of_entry(
    alloc: Global,
    coding: u8,
    bytes: &[u8],
    entry: u32,
    start: u32,
) -> Result<FieldText<'_>, RecordFault>
    requires short { length bytes.now ≤ 99999 }
    requires known { is_known_coding coding ≡ true }
    requires start { start ≤ 2 }
    ensures text { IfOk result (λ text. IsTextIn coding bytes.now (bytes_of text)) }
    ensures refused { IfErr result (λ fault. IsRefusedText coding bytes.now entry start fault) }
    ensures size { IfOk result (λ text. length (bytes_of text) ≤ 3 * length bytes.now) }
{
    match text_in(alloc, coding, bytes) {
        Ok(text) => Ok(text),
        Err(Marc8Fault::BadByte(place)) => {
            Err(RecordFault::Refused(Refusal::BadText(entry, start + place)))
        }
        Err(Marc8Fault::OtherSet(set, place)) => {
            Err(RecordFault::Refused(Refusal::OtherSet(set, entry, start + place)))
        }
        Err(Marc8Fault::NoMemory) => Err(RecordFault::NoMemory),
    }
}
