ghost use Rattle.std.specs.Prelude.{◌≡◌, ◌<◌, ◌≤◌, IsTrue};
ghost use Rattle.marc_types.specs.Valid.{is_graphic};
ghost use Rattle.marc8_latin.specs.Parts.{graphic, character};
ghost use Rattle.marc8_latin.specs.declared.charset.Charset.TheVariants.{ExtendedLatin};

use crate::part::{DELIMITER, Designations, ESCAPE, Meaning};

/// A character set that is read.
#[derive(Clone, Copy)]
pub enum Charset {
    BasicLatin,
    ExtendedLatin,
}

/// Stands in the tables where a code has no character.
const NONE: char = '\0';

/// The spacing characters of Extended Latin, at A1 to C8.
const SPACING: [char; 40] = [
    'Ł', 'Ø', 'Đ', 'Þ', 'Æ', 'Œ', 'ʹ', '·', '♭', '®', '±', 'Ơ', 'Ư', 'ʼ', NONE, 'ʻ', 'ł', 'ø', 'đ',
    'þ', 'æ', 'œ', 'ʺ', 'ı', '£', 'ð', NONE, 'ơ', 'ư', NONE, NONE, '°', 'ℓ', '℗', '©', '♯', '¿',
    '¡', 'ß', '€',
];

/// The marks of Extended Latin, at E0 to FE.
const MARKS: [char; 31] = [
    '\u{309}', '\u{300}', '\u{301}', '\u{302}', '\u{303}', '\u{304}', '\u{306}', '\u{307}',
    '\u{308}', '\u{30c}', '\u{30a}', '\u{fe20}', '\u{fe21}', '\u{315}', '\u{30b}', '\u{310}',
    '\u{327}', '\u{328}', '\u{323}', '\u{324}', '\u{325}', '\u{333}', '\u{332}', '\u{326}',
    '\u{31c}', '\u{32e}', '\u{fe22}', '\u{fe23}', NONE, NONE, '\u{313}',
];

impl Charset {
    /// The character of a code of 21 to 7E.
    pub fn graphic(self, code: u8) -> Option<Meaning>
        requires { IsTrue (is_graphic code) }
        ensures { result ≡ graphic self code }
    {
        match self {
            Charset::BasicLatin => Some(Meaning::Base(char::from(code))),
            Charset::ExtendedLatin => extended_latin(code),
        }
    }
}

/// Codes from 60 on are marks.
fn extended_latin(code: u8) -> Option<Meaning>
    requires { IsTrue (is_graphic code) }
    ensures { result ≡ graphic ExtendedLatin code }
{
    match code {
        0x21..=0x48 => Some(SPACING[(code - 0x21) as usize])
            .filter(|c| *c != NONE)
            .map(Meaning::Base),
        0x60..=0x7e => Some(MARKS[(code - 0x60) as usize])
            .filter(|c| *c != NONE)
            .map(Meaning::Mark),
        _ => None,
    }
}

/// What a byte means by itself; ESC and the delimiter mean nothing.
pub fn character(sets: Designations, byte: u8) -> Option<Meaning>
    ensures { result ≡ character sets byte }
{
    match byte {
        ESCAPE | DELIMITER => None,
        b' ' => Some(Meaning::Base(' ')),
        0x21..=0x7e => sets.g0.graphic(byte),
        0x88 => Some(Meaning::Control('\u{98}')),
        0x89 => Some(Meaning::Control('\u{9c}')),
        0x8d => Some(Meaning::Control('\u{200d}')),
        0x8e => Some(Meaning::Control('\u{200c}')),
        0x00..=0x9f => Some(Meaning::Control(char::from(byte))),
        0xa1..=0xfe => sets.g1.graphic(byte - 0x80),
        _ => None,
    }
}
