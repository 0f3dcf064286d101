//! A pen that writes a comparison text while the characters come, and holds blanks back.
ghost use Rattle.std.specs.Prelude.{◌≡◌, ◌≢◌, ℕ, List, [], ◌∷◌, ◌++◌, ◌<◌, IsTrue, IsUtf8, length, reverse, chars, encode_utf8_all, IfOk, OnOk};
ghost use Rattle.naco_form.specs.Ascii.{ascii_entry};
ghost use Rattle.naco_form.specs.Comparison.{commas, squeezed, keeps_first_comma, drop_first_comma, trim_end, without_last_comma};
ghost use Rattle.naco_form.specs.Pen.{PopsIf, whole, written_and_still};
ghost use Rattle.naco_form.specs.Table.{blank, table_entry};

use crate::table::{Entry, ascii_entry_of, entry_of};
use marc_types::{NoMemory, Text};
use std::alloc::Global;

/// Where a pen stands: before its first character, behind a character, or behind a character and a blank that is held back.
#[derive(Clone, Copy)]
pub enum At {
    Front,
    Word,
    Blank,
}

/// The text so far, where the pen stands, and whether the next comma stays.
#[derive(Drop)]
pub struct Pen {
    pub out: Text,
    pub at: At,
    pub keeps_comma: bool,
}

const KEEPS_FIRST_COMMA: u8 = b'a';

impl Pen {
    /// A pen for the text of a subfield with this code, with room for so many bytes.
    #[tactic(auto, unfolding(crate::proofs::Computing::squeezing), using(crate::proofs::PenLemmas::nothing_written))]
    pub fn new(alloc: Global, code: u8, room: usize) -> Result<Pen, NoMemory>
        ensures { IfOk result (λ pen. (cs : List ℕ) → whole pen cs ≡ squeezed (commas (keeps_first_comma code) cs)) }
    {
        Ok(Pen {
            out: Text::with_capacity(alloc, room)?,
            at: At::Front,
            keeps_comma: code == KEEPS_FIRST_COMMA,
        })
    }

    /// Takes the next character that the table gives.
    pub fn put(&mut self, alloc: Global, c: char) -> Result<(), NoMemory>
        ensures { OnOk result ((cs : List ℕ) → whole self.new cs ≡ whole self.old (c ∷ cs)) }
    {
        match self.decide_comma(c) {
            ' ' => {
                self.hold_blank();
                Ok(())
            }
            decided => self.write(alloc, decided),
        }
    }

    /// Takes the next character, as the table writes it.
    pub fn put_entry(&mut self, alloc: Global, c: char) -> Result<(), NoMemory>
        ensures { OnOk result ((cs : List ℕ) → whole self.new cs ≡ whole self.old (table_entry c ++ cs)) }
    {
        match entry_of(c) {
            Entry::Nothing => Ok(()),
            Entry::One(first) => self.put(alloc, first),
            Entry::Two(first, second) => {
                self.put(alloc, first)?;
                self.put(alloc, second)
            }
        }
    }

    /// Takes the next ASCII character, as folding and the table write it.
    pub fn put_ascii(&mut self, alloc: Global, byte: u8) -> Result<(), NoMemory>
        requires { byte < 128 }
        ensures { OnOk result ((cs : List ℕ) → whole self.new cs ≡ whole self.old (ascii_entry byte ++ cs)) }
    {
        match ascii_entry_of(byte) {
            Some(c) => self.put(alloc, c),
            None => Ok(()),
        }
    }

    /// The character, with a blank in place of a comma that doesn't stay.
    #[tactic(auto, unfolding(crate::specs::Comparison::commas))]
    fn decide_comma(&mut self, c: char) -> char
        ensures decided { (cs : List ℕ) → commas self.old.keeps_comma (c ∷ cs) ≡ result ∷ commas self.new.keeps_comma cs }
        ensures out { self.new.out ≡ self.old.out }
        ensures at { self.new.at ≡ self.old.at }
    {
        if c != ',' {
            return c;
        }
        if !self.keeps_comma {
            return ' ';
        }
        self.keeps_comma = false;
        c
    }

    /// Writes a character that is no blank, behind the blank that is held back.
    fn write(&mut self, alloc: Global, c: char) -> Result<(), NoMemory>
        requires { c ≢ blank }
        ensures comma { self.new.keeps_comma ≡ self.old.keeps_comma }
        ensures text { OnOk result ((cs : List ℕ) → written_and_still self.new cs ≡ written_and_still self.old (c ∷ cs)) }
    {
        if let At::Blank = self.at {
            self.out.push(alloc, ' ')?;
        }
        self.out.push(alloc, c)?;
        self.at = At::Word;
        Ok(())
    }

    /// Holds a blank back, unless nothing stands before it.
    #[tactic(auto, unfolding(crate::proofs::Computing::squeezing))]
    fn hold_blank(&mut self)
        ensures comma { self.new.keeps_comma ≡ self.old.keeps_comma }
        ensures text { (cs : List ℕ) → written_and_still self.new cs ≡ written_and_still self.old (blank ∷ cs) }
    {
        if let At::Word = self.at {
            self.at = At::Blank;
        }
    }

    /// The text, without a comma at its end and the blanks before that.
    pub fn finish(self) -> Text
        ensures { result ≡ encode_utf8_all (without_last_comma (whole self [])) }
    {
        let Pen { mut out, .. } = self;
        drop_last_comma(&mut out);
        trim_end(&mut out);
        out
    }
}

/// Takes a comma off the end.
fn drop_last_comma(out: &mut Text)
    ensures { chars out.new ≡ reverse (drop_first_comma (reverse (chars out.old))) }
{
    pop_if(out, b',');
}

/// Takes the blanks off the end.
fn trim_end(out: &mut Text)
    ensures trimmed { chars out.new ≡ trim_end (chars out.old) }
    ensures utf8 { IsUtf8 out.new }
{
    while pop_if(out, b' ') {}
}

/// Takes an ASCII character off the end, where the text ends with it.
fn pop_if(out: &mut Text, byte: u8) -> bool
    requires { byte < 128 }
    ensures cases { PopsIf byte (reverse (chars out.old)) (reverse (chars out.new)) result }
    ensures utf8 { IsUtf8 out.new }
    ensures shorter { IsTrue result → length out.new < length out.old }
{
    out.pop_if(byte)
}
