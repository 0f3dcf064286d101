ghost use Rattle.std.specs.Prelude.{◌≡◌, ◌<◌, ◌∷◌, length, take, MatchResult};
ghost use Rattle.marc8_latin.specs.declared.part.Designations.{Designations};
ghost use Rattle.marc8_latin.specs.Parts.{other_set, multibyte_set, designation_code, designation_fault, code_fault, escape_fault, fault_of, IsFront};

use crate::charset::{Charset, character};
use crate::fault::Marc8Fault;
use marc_types::Set;

/// Begins an escape sequence.
pub const ESCAPE: u8 = 0x1b;

/// Stands before each subfield's code.
pub const DELIMITER: u8 = 0x1f;

/// The sets that are designated as G0, for bytes of 21 to 7E, and as G1, for bytes of A1 to FE.
#[derive(Clone, Copy)]
pub struct Designations {
    pub g0: Charset,
    pub g1: Charset,
}

impl Designations {
    ghost use Rattle.marc8_latin.specs.Text.{after, latin};

    /// As a field's text starts.
    pub fn latin() -> Designations
        ensures { result ≡ latin }
    {
        Designations {
            g0: Charset::BasicLatin,
            g1: Charset::ExtendedLatin,
        }
    }

    /// The sets behind a part of this meaning.
    pub fn after(self, meaning: Meaning) -> Designations
        ensures { result ≡ after self meaning }
    {
        match meaning {
            Meaning::DesignatesG0(set) => Designations { g0: set, ..self },
            Meaning::DesignatesG1(set) => Designations { g1: set, ..self },
            _ => self,
        }
    }
}

/// What a part of a text means.
#[derive(Clone, Copy)]
pub enum Meaning {
    DesignatesG0(Charset),
    DesignatesG1(Charset),
    Base(char),
    Mark(char),
    Control(char),
    /// A subfield delimiter and this code.
    Subfield(u8),
}

/// The part that stands in front of some bytes, and its length.
#[derive(Clone, Copy)]
pub struct Front {
    pub meaning: Meaning,
    pub len: usize,
}

/// The part in front of bytes that are not empty, or why none is there, with the place in these bytes.
pub fn first_part(sets: Designations, bytes: &[u8]) -> Result<Front, Marc8Fault>
    requires { 0 < length bytes.now }
    ensures { MatchResult result
        (λ front. IsFront sets bytes.now front.meaning front.len)
        (λ fault. fault_of sets bytes.now ≡ Some fault) }
{
    match bytes {
        [ESCAPE, after @ ..] => escape_sequence(after),
        [DELIMITER, after @ ..] => delimiter(after),
        [byte, ..] => match character(sets, *byte) {
            Some(meaning) => Ok(Front { meaning, len: 1 }),
            None => Err(Marc8Fault::BadByte(0)),
        },
        [] => unreachable!(),
    }
}

/// The part that a delimiter begins.
fn delimiter(after: &[u8]) -> Result<Front, Marc8Fault>
    ensures { MatchResult result
        (λ front. (sets : Designations) → IsFront sets (0x1f ∷ after.now) front.meaning front.len)
        (λ fault. code_fault after.now ≡ Some fault) }
{
    match after {
        [] => Err(Marc8Fault::BadByte(0)),
        [code, ..] if code.is_ascii_graphic() => Ok(Front {
            meaning: Meaning::Subfield(*code),
            len: 2,
        }),
        _ => Err(Marc8Fault::BadByte(1)),
    }
}

/// The part that ESC begins.
fn escape_sequence(after: &[u8]) -> Result<Front, Marc8Fault>
    ensures { MatchResult result
        (λ front. (sets : Designations) → IsFront sets (0x1b ∷ after.now) front.meaning front.len)
        (λ fault. escape_fault after.now ≡ Some fault) }
{
    match after {
        [b'(' | b',', code @ ..] => {
            let set = designated(code)?;
            Ok(Front {
                meaning: Meaning::DesignatesG0(set),
                len: 2 + code_len(set),
            })
        }
        [b')' | b'-', code @ ..] => {
            let set = designated(code)?;
            Ok(Front {
                meaning: Meaning::DesignatesG1(set),
                len: 2 + code_len(set),
            })
        }
        [b's', ..] => Ok(Front {
            meaning: Meaning::DesignatesG0(Charset::BasicLatin),
            len: 2,
        }),
        [b'$', code @ ..] => Err(Marc8Fault::OtherSet(multibyte_set(code), 0)),
        [b'g', ..] => Err(Marc8Fault::OtherSet(Set::GreekSymbols, 0)),
        [b'b', ..] => Err(Marc8Fault::OtherSet(Set::Subscripts, 0)),
        [b'p', ..] => Err(Marc8Fault::OtherSet(Set::Superscripts, 0)),
        _ => Err(Marc8Fault::BadByte(0)),
    }
}

/// The set that is designated behind ESC and a side.
fn designated(code: &[u8]) -> Result<Charset, Marc8Fault>
    ensures { MatchResult result
        (λ set. take (length (designation_code set)) code.now ≡ designation_code set)
        (λ fault. designation_fault code.now ≡ Some fault) }
{
    match code {
        [b'B', ..] => Ok(Charset::BasicLatin),
        [b'!', b'E', ..] => Ok(Charset::ExtendedLatin),
        [b'!', _, ..] => Err(Marc8Fault::OtherSet(Set::Unknown, 0)),
        [] | [b'!'] => Err(Marc8Fault::BadByte(0)),
        [byte, ..] => Err(Marc8Fault::OtherSet(other_set(*byte), 0)),
    }
}

/// The number of bytes that designate a set, behind ESC and a side.
fn code_len(set: Charset) -> usize
    ensures { result ≡ length (designation_code set) }
{
    match set {
        Charset::BasicLatin => 1,
        Charset::ExtendedLatin => 2,
    }
}

/// The set behind ESC `$`: EACC by 31, also with a side before it.
fn multibyte_set(code: &[u8]) -> Set
    ensures { result ≡ multibyte_set code.now }
{
    match code {
        [b'1', ..] | [b'(' | b',' | b')' | b'-', b'1', ..] => Set::Eacc,
        _ => Set::Unknown,
    }
}

/// The set that isn't read, by the byte that designates it.
fn other_set(byte: u8) -> Set
    ensures { result ≡ other_set byte }
{
    match byte {
        b'1' => Set::Eacc,
        b'2' => Set::BasicHebrew,
        b'3' => Set::BasicArabic,
        b'4' => Set::ExtendedArabic,
        b'N' => Set::BasicCyrillic,
        b'Q' => Set::ExtendedCyrillic,
        b'S' => Set::BasicGreek,
        _ => Set::Unknown,
    }
}
