//! A writer takes the entries of a history as they come.
use crate::book::Naming;
use crate::writer::BrowseWriter;
use heading_rows::{HeadingTaker, Headings};
use marc_types::NoMemory;
use std::sync::Wait;

impl<J: Naming, R: Wait + Drop> HeadingTaker for BrowseWriter<J, R> {
    ghost use Rattle.std.specs.Prelude.{◌≡◌, false};

    ghost taken = { λ w. w.taken };

    ghost takes = { λ w. w.spent ≡ false };

    fn take(&mut self, headings: Headings) -> Result<(), NoMemory> {
        BrowseWriter::take(self, headings)
    }

    fn count(&self) -> u64 {
        self.taken()
    }
}
