ghost use Rattle.std.specs.Prelude.{◌≡◌, ◌↔◌, IsTrue};
ghost use Rattle.match_report.specs.Postings.{number_rank, number_text};
ghost use Rattle.match_report.specs.Groups.{number_word, same_number};

use marc_types::{Sequence, Text};

/// A number by which libraries name a book.
#[derive(Debug, Drop)]
pub enum Number {
    /// An International Standard Book Number, as its thirteen digits.
    Isbn([u8; 13]),
    /// A Library of Congress control number, without blanks.
    Lccn(Text),
}

/// The numbers of a record: ISBNs, then LCCNs, each in the record's order.
pub type Numbers = Sequence<Number>;

impl Number {
    /// The place of the kind of number in the order of numbers.
    pub(crate) fn rank(&self) -> u8
        ensures { result ≡ number_rank self.now }
    {
        match self {
            Number::Isbn(_) => 0,
            Number::Lccn(_) => 1,
        }
    }

    /// The digits or characters.
    pub fn text(&self) -> &[u8]
        ensures { result.now ≡ number_text self.now }
    {
        match self {
            Number::Isbn(digits) => digits,
            Number::Lccn(text) => text.as_bytes(),
        }
    }

    /// How lines name the kind of number.
    pub(crate) fn word(&self) -> &'static str
        ensures { result.now ≡ number_word self.now }
    {
        match self {
            Number::Isbn(_) => "ISBN",
            Number::Lccn(_) => "LCCN",
        }
    }

    pub(crate) fn is_same(&self, other: &Number) -> bool
        ensures { result ≡ same_number self.now other.now }
    {
        self.rank() == other.rank() && self.text() == other.text()
    }
}
