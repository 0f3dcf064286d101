//! A text of any length.
ghost use Rattle.std.specs.Prelude.{◌≡◌, ◌↔◌, ◌<◌, ◌++◌, ℕ, List, [], length, IfOk, OnOk, OnErr, IsTrue, Some, IsAscii, IsUtf8, encode_utf8, string_bytes};
ghost use Rattle.marc_types.specs.Texts.{without_blanks, DropsIf};
ghost use Rattle.std.specs.Str.{bytes_eq};
ghost use Rattle.std.specs.Ordering.{nat_cmp};
ghost use Rattle.std.specs.Hash as fed;
ghost use Rattle.std.specs.Cmp.{partial_equiv_from_equiv};
ghost use Rattle.std.specs.Cmp.Lexicographic.{slice_cmp, nat_list_cmp_total, nat_list_eq_equiv, texts_po, texts_ties};
ghost use Rattle.std.specs.Cmp.Rules.{hashing};
ghost use Rattle.std.proofs.Common.{rules, refl};

use crate::copying::{NoMemory, TryCopy};
use crate::short_text::{BLANK, ROOM, ShortText, ends_with};
use std::alloc::Global;
use std::cmp::Ordering;
use std::hash::{Hash, Hasher};
use std::marker::Model;
use std::mem::size_of;
use std::{fmt, str};

/// Where the bytes of a text lie: in the text itself, or apart from it.
#[derive(Drop)]
enum Bytes {
    Inline(ShortText),
    Apart(String),
}

/// A text in UTF-8, which contracts see as its bytes. Texts are ordered by their bytes. A short text takes no memory.
#[derive(Drop)]
pub struct Text {
    bytes: Bytes,
}

// The tag, then a `String` or the length and `ROOM` bytes.
const _: () = prove!(size_of::<Text>() == 32);

impl Model for Text {
    ghost use Rattle.std.specs.Prelude.{List, ℕ};
    ghost use Rattle.marc_types.specs.Texts.{text_bytes};

    ghost Value = { List ℕ };

    ghost view = { λ t. text_bytes t.bytes };
}

impl Text {
    /// The text with no bytes.
    pub fn new() -> Text
        ensures { result ≡ [] }
    {
        Text {
            bytes: Bytes::Inline(ShortText::new()),
        }
    }

    /// No bytes yet, and room for so many.
    pub fn with_capacity(alloc: Global, capacity: usize) -> Result<Text, NoMemory>
        ensures { IfOk result (λ made. made ≡ []) }
    {
        if capacity <= ROOM {
            return Ok(Text::new());
        }
        Ok(Text {
            bytes: Bytes::Apart(String::with_capacity(alloc, capacity)?),
        })
    }

    /// A copy of a text.
    pub fn from_str(alloc: Global, text: &str) -> Result<Text, NoMemory>
        ensures { IfOk result (λ made. made ≡ text.now) }
    {
        if text.len() > ROOM {
            return Ok(Text {
                bytes: Bytes::Apart(String::from_str(alloc, text)?),
            });
        }
        Ok(Text {
            bytes: Bytes::Inline(ShortText::of(text)),
        })
    }

    /// ASCII characters as a text.
    #[tactic(auto, using(crate::proofs::ShortTexts::ascii_text))]
    pub fn from_ascii(alloc: Global, bytes: &[u8]) -> Result<Text, NoMemory>
        requires { IsAscii bytes.now }
        ensures { IfOk result (λ made. made ≡ bytes.now) }
    {
        Text::from_str(alloc, unsafe { str::from_utf8_unchecked(bytes) })
    }

    /// The text of a string, whose memory a short one lets go.
    pub fn from_string(text: String) -> Text
        ensures { result ≡ string_bytes text }
    {
        if text.len() > ROOM {
            return Text {
                bytes: Bytes::Apart(text),
            };
        }
        Text {
            bytes: Bytes::Inline(ShortText::of(text.as_str())),
        }
    }

    /// Appends a text.
    pub fn push_str(&mut self, alloc: Global, text: &str) -> Result<(), NoMemory>
        ensures text { OnOk result (self.new ≡ self.old ++ text.now) }
        ensures err { OnErr result (self.new ≡ self.old) }
        ensures utf8 { IsUtf8 self.old }
    {
        match &mut self.bytes {
            Bytes::Inline(short) if text.len() <= short.room() => short.push_str(text),
            Bytes::Inline(short) => {
                let joined = joined(alloc, short.as_str(), text)?;
                self.bytes = Bytes::Apart(joined);
            }
            Bytes::Apart(string) => string.push_str(text)?,
        }
        Ok(())
    }

    /// Appends a character.
    pub fn push(&mut self, alloc: Global, c: char) -> Result<(), NoMemory>
        ensures text { OnOk result (self.new ≡ self.old ++ encode_utf8 c) }
        ensures err { OnErr result (self.new ≡ self.old) }
        ensures utf8 { IsUtf8 self.old }
    {
        match &mut self.bytes {
            Bytes::Inline(short) if c.is_ascii() && short.room() > 0 => {
                short.push_ascii(c as u8);
                Ok(())
            }
            _ => self.push_str(alloc, c.encode_utf8(&mut [0; 4])),
        }
    }

    /// Takes an ASCII character off the end, where the text ends with it.
    pub fn pop_if(&mut self, byte: u8) -> bool
        requires { byte < 128 }
        ensures cases { DropsIf byte self.old self.new result }
        ensures utf8 { IsUtf8 self.new }
    {
        match &mut self.bytes {
            Bytes::Inline(short) => short.pop_if(byte),
            Bytes::Apart(string) => pop_if(string, byte),
        }
    }

    /// The text without its blanks.
    pub fn without_blanks(&self, alloc: Global) -> Result<Text, NoMemory>
        ensures { IfOk result (λ made. made ≡ without_blanks self.now) }
    {
        match &self.bytes {
            Bytes::Inline(short) => Ok(Text {
                bytes: Bytes::Inline(short.without_blanks()),
            }),
            Bytes::Apart(string) => {
                let made = string_without_blanks(alloc, string.as_str())?;
                Ok(Text::from_string(made))
            }
        }
    }

    /// The text as a `str`.
    pub fn as_str(&self) -> &str
        ensures { result.now ≡ self.now }
    {
        match &self.bytes {
            Bytes::Inline(short) => short.as_str(),
            Bytes::Apart(string) => string.as_str(),
        }
    }

    /// The bytes of the text.
    pub fn as_bytes(&self) -> &[u8]
        ensures { result.now ≡ self.now }
    {
        match &self.bytes {
            Bytes::Inline(short) => short.as_bytes(),
            Bytes::Apart(string) => string.as_bytes(),
        }
    }

    /// The number of bytes.
    pub fn len(&self) -> usize
        ensures { result ≡ length self.now }
    {
        self.as_bytes().len()
    }

    /// Whether it has no byte.
    pub fn is_empty(&self) -> bool
        ensures { IsTrue result ↔ (self.now ≡ []) }
    {
        self.as_bytes().is_empty()
    }
}

/// One text behind another, which are longer than a short text.
fn joined(alloc: Global, front: &str, more: &str) -> Result<String, NoMemory>
    ensures { IfOk result (λ made. string_bytes made ≡ front.now ++ more.now) }
{
    let mut string = String::with_capacity(alloc, front.len().saturating_add(more.len()))?;
    string.push_str(front)?;
    string.push_str(more)?;
    Ok(string)
}

/// Takes an ASCII character off the end, where the string ends with it.
fn pop_if(string: &mut String, byte: u8) -> bool
    requires { byte < 128 }
    ensures cases { DropsIf byte (string_bytes string.old) (string_bytes string.new) result }
    ensures utf8 { IsUtf8 (string_bytes string.new) }
{
    if !ends_with(string.as_bytes(), byte) {
        return false;
    }
    string.pop();
    true
}

fn bytes_without_blanks(alloc: Global, bytes: &[u8]) -> Result<Vec<u8>, NoMemory>
    ensures { IfOk result (λ made. made.items ≡ without_blanks bytes.now) }
{
    let made = bytes
        .iter()
        .copied()
        .filter(|byte| *byte != BLANK)
        .collect(alloc)?;
    Ok(made)
}

fn string_without_blanks(alloc: Global, text: &str) -> Result<String, NoMemory>
    ensures { IfOk result (λ made. string_bytes made ≡ without_blanks text.now) }
{
    let bytes = bytes_without_blanks(alloc, text.as_bytes())?;
    Ok(unsafe { String::from_utf8_unchecked(bytes) })
}

impl fmt::Debug for Text {
    fn fmt<W: fmt::Write>(&self, f: &mut fmt::Formatter<W>) -> fmt::Result {
        fmt::Debug::fmt(self.as_str(), f)
    }
}

impl TryCopy for Text {
    fn copy(&self, _alloc: Global) -> Result<Self, NoMemory> {
        let bytes = match &self.bytes {
            Bytes::Inline(short) => Bytes::Inline(short.twin()),
            Bytes::Apart(string) => Bytes::Apart(string.clone()?),
        };
        Ok(Text { bytes })
    }
}

impl PartialEq for Text {
    ghost eq = { bytes_eq };

    ghost laws = { partial_equiv_from_equiv nat_list_eq_equiv };

    fn eq(&self, other: &Text) -> bool {
        self.as_bytes() == other.as_bytes()
    }
}

impl Eq for Text {
    ghost laws = { nat_list_eq_equiv };
}

impl PartialOrd for Text {
    ghost partial_cmp = { λ x y. Some (slice_cmp nat_cmp x y) };

    ghost laws = { texts_po };

    fn partial_cmp(&self, other: &Text) -> Option<Ordering> {
        Some(self.cmp(other))
    }
}

impl Ord for Text {
    ghost cmp = { slice_cmp nat_cmp };

    ghost total = { nat_list_cmp_total };

    ghost matches_partial_cmp = { λ x y. refl };

    ghost matches_eq = { texts_ties };

    fn cmp(&self, other: &Text) -> Ordering {
        self.as_bytes().cmp(other.as_bytes())
    }
}

impl Hash for Text {
    ghost hash_input = { fed.str };

    ghost respects_eq = { Prim.search (hashing, rules) };

    fn hash<H: Hasher>(&self, state: &mut H) {
        self.as_str().hash(state);
    }
}
