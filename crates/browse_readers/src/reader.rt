//! Readers of pages.
ghost use Rattle.std.specs.Prelude.{◌≡◌, Ok, Err, IfOk, IfErr, OnErr};
ghost use mathlib.Core.List.{IsPrefix};
ghost use Rattle.heading_rows.specs.Listing.{page_at};
ghost use Rattle.browse_readers.specs.Browsing.{page_after, Rose};
ghost use Rattle.browse_readers.specs.declared.reader.PageFault.TheVariants.{Gone};

use crate::book::{Front, Naming};
use crate::shared::Shared;
use crate::window::{Away, Window};
use heading_rows::{BrowsePage, Table};
use marc_types::{Form, NoMemory};
use std::alloc::Global;
use std::marker::Model;

/// Why there is no page.
#[derive(Clone, Copy, Debug, PartialEq, Eq)]
pub enum PageFault {
    Gone,
    NoMemory,
}

/// Pages through the rows that a window shows. Contracts see it as its window.
#[derive(Drop)]
pub struct BrowseReader<W: Window> {
    window: W,
}

impl<W: Window> Model for BrowseReader<W> {
    ghost Value = { W };

    ghost view = { λ r. r.window };
}

impl<W: Window> BrowseReader<W> {
    /// A reader that looks through this window.
    pub fn new(window: W) -> BrowseReader<W>
        ensures { result ≡ window }
    {
        BrowseReader { window }
    }

    /// The window that it looks through.
    pub fn into_window(self) -> W
        ensures { result ≡ self }
    {
        let BrowseReader { window } = self;
        window
    }

    /// A page of a list that begins with all that this reader saw before: the first rows whose form isn't before a form, so many of
    /// them. `Gone` where the window was away; nothing else changes then.
    #[tactic(auto, using(crate::proofs::Taken::page_is))]
    pub fn page(&mut self, alloc: Global, from: &Form, most: u32) -> Result<BrowsePage, PageFault>
        ensures page { IfOk result (λ page. page ≡ page_after (W.known self.new) from.now most) }
        ensures begins { IsPrefix (W.known self.old) (W.known self.new) }
        ensures gone { IfErr result (λ fault. fault ≡ Gone → (W.known self.new ≡ W.known self.old) × Rose (W.refused self.old) (W.refused self.new)) }
    {
        let read = |table: &Table| -> Result<BrowsePage, NoMemory>
            ensures { IfOk result (λ page. page ≡ page_at table.now from.entry.now most) }
        { table.page(alloc, from, most) };
        match self.window.with(read) {
            Ok(Ok(page)) => Ok(page),
            Ok(Err(NoMemory)) => Err(PageFault::NoMemory),
            Err(Away) => Err(PageFault::Gone),
        }
    }
}

impl<J: Naming> BrowseReader<Shared<J>> {
    /// Each later page is one of a list that begins with the mark too.
    pub fn learn(&mut self, mark: &Front<J>)
        ensures mark { IsPrefix mark.now self.new.known }
        ensures begins { IsPrefix self.old.known self.new.known }
    {
        self.window.learn(mark)
    }

    /// The list of the last page, or the longest mark where that came later. It begins the list taken, or is begun by it, as
    /// `Front::covers` finds.
    pub fn seen(&self) -> Front<J>
        ensures { result ≡ self.now.known }
    {
        self.window.known().again()
    }
}
