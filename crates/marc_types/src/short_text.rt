//! A short text that lies in the value itself.
ghost use Rattle.std.specs.Prelude.{◌≡◌, ◌≢◌, ℕ, ◌+◌, ◌-◌, ◌<◌, ◌≤◌, List, [], ◌∷◌, ◌++◌, length, take, IsUtf8, IsTrue, IsFalse};
ghost use Rattle.marc_types.specs.Texts.{without_blanks, DropsIf};

use std::marker::Model;
use std::str;

/// The most bytes of a text that lies in the value itself: with its length and the tag of `text::Bytes` they take no more room
/// than a `String` and that tag.
pub(crate) const ROOM: usize = 30;

pub(crate) const BLANK: u8 = b' ';

/// A text of at most `ROOM` bytes, which contracts see as these bytes.
#[derive(Drop)]
pub(crate) struct ShortText {
    len: u8,
    bytes: [u8; ROOM],
}

impl Model for ShortText {
    ghost use Rattle.std.specs.Prelude.{List, ℕ, ◌≤◌, take, IsUtf8};

    ghost Value = { List ℕ };

    ghost view = { λ t. take t.len t.bytes };

    ghost invariant = { λ t. (t.len ≤ 30) × ∥ IsUtf8 (take t.len t.bytes) ∥₁ };
}

impl ShortText {
    pub(crate) fn new() -> ShortText
        ensures { result ≡ [] }
    {
        ShortText {
            len: 0,
            bytes: [0; ROOM],
        }
    }

    /// A text that there is room for.
    pub(crate) fn of(text: &str) -> ShortText
        requires { length text.now ≤ 30 }
        ensures { result ≡ text.now }
    {
        let mut short = ShortText::new();
        short.push_str(text);
        short
    }

    /// The same text once more.
    pub(crate) fn twin(&self) -> ShortText
        ensures { result ≡ self.now }
    {
        ShortText {
            len: self.len,
            bytes: self.bytes,
        }
    }

    pub(crate) fn as_bytes(&self) -> &[u8]
        ensures value { result.now ≡ self.now }
        ensures short { length self.now ≤ 30 }
    {
        &self.bytes[..self.len as usize]
    }

    pub(crate) fn as_str(&self) -> &str
        ensures value { result.now ≡ self.now }
        ensures short { length self.now ≤ 30 }
    {
        unsafe { str::from_utf8_unchecked(&self.bytes[..self.len as usize]) }
    }

    /// How many more bytes there is room for.
    pub(crate) fn room(&self) -> usize
        ensures { result + length self.now ≡ 30 }
    {
        ROOM - self.len as usize
    }

    /// Appends a text that there is room for.
    pub(crate) fn push_str(&mut self, text: &str)
        requires { length self.old + length text.now ≤ 30 }
        ensures text { self.new ≡ self.old ++ text.now }
        ensures utf8 { IsUtf8 self.old }
    {
        let start = self.len as usize;
        let end = start + text.len();
        self.bytes[start..end].copy_from_slice(text.as_bytes());
        self.len = end as u8;
    }

    /// Appends an ASCII character that there is room for.
    pub(crate) fn push_ascii(&mut self, byte: u8)
        requires room { length self.old < 30 }
        requires ascii { byte < 128 }
        ensures text { self.new ≡ self.old ++ byte ∷ [] }
        ensures utf8 { IsUtf8 self.old }
    {
        self.bytes[self.len as usize] = byte;
        self.len += 1;
    }

    /// Takes an ASCII character off the end, where the text ends with it.
    pub(crate) fn pop_if(&mut self, byte: u8) -> bool
        requires { byte < 128 }
        ensures cases { DropsIf byte self.old self.new result }
        ensures utf8 { IsUtf8 self.new }
    {
        if !ends_with(self.as_bytes(), byte) {
            return false;
        }
        self.len -= 1;
        true
    }

    /// The text without its blanks.
    pub(crate) fn without_blanks(&self) -> ShortText
        ensures { result ≡ without_blanks self.now }
    {
        let mut bytes = [0; ROOM];
        let len = fill(&mut bytes, self.as_str().as_bytes());
        ShortText { len, bytes }
    }
}

/// Writes the bytes that are no blank to the front of the room, and counts them.
fn fill(room: &mut [u8; ROOM], bytes: &[u8]) -> u8
    requires { length bytes.now ≤ 30 }
    ensures fits { result ≤ 30 }
    ensures filled { take result room.new ≡ without_blanks bytes.now }
{
    let mut len = 0;
    for byte in bytes {
        if *byte != BLANK {
            room[len as usize] = *byte;
            len += 1;
        }
    }
    len
}

/// Whether the bytes end with that one.
pub(crate) fn ends_with(bytes: &[u8], byte: u8) -> bool
    ensures ends { IsTrue result → bytes.now ≡ take (length bytes.now - 1) bytes.now ++ byte ∷ [] }
    ensures other { IsFalse result → (front : List ℕ) → bytes.now ≢ front ++ byte ∷ [] }
{
    match bytes {
        [.., last] => *last == byte,
        [] => false,
    }
}
