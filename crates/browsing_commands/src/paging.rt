//! What pages through the established headings while files are loaded.
ghost use Rattle.std.specs.Prelude.{◌≡◌, [], IfOk};
ghost use Rattle.browse_readers.specs.Browsing.{page_after};
ghost use Rattle.browsing_commands.specs.Pages.{first_form, most_rows};

use browse_readers::{BrowseReader, Front, Naming, PageFault, Shared};
use heading_rows::BrowsePage;
use loader_workers::{Meanwhile, Pager};
use marc_types::{Form, Items, Kind, NoMemory};
use std::alloc::Global;
use std::sync::Wait;

/// So many rows a page has at most.
pub const MOST_ROWS: u32 = 20;

/// So many pages a command has at most.
pub const MOST_PAGES: usize = 1000;

/// So often at most a page is taken.
const LOOKS: u32 = 1 << 30;

/// The form that stands before all others.
pub fn first_form(alloc: Global) -> Form
    ensures { result ≡ first_form }
{
    Form {
        kind: Kind::Personal,
        items: Items::from_vec(Vec::new(alloc)),
    }
}

/// A page, and the front of a history whose page it is.
#[derive(Drop)]
pub struct KeptPage<J: Naming> {
    pub page: BrowsePage,
    pub of: Front<J>,
    ghost is: { page ≡ page_after of first_form most_rows },
}

/// A reader, and the pages that it got: none of as many entries as the one before it. Where there are too many it keeps every second one, and
/// rests twice as long between two. Where the reader is gone, or there is no memory for a page, it gets no more.
#[derive(Drop)]
pub struct PageKeeper<J: Naming> {
    alloc: Global,
    reader: BrowseReader<Shared<J>>,
    pages: Vec<KeptPage<J>>,
    rests: u32,
    got: Result<(), NoMemory>,
}

impl<J: Naming> PageKeeper<J> {
    /// Of a reader that got no page yet.
    pub fn new(alloc: Global, reader: BrowseReader<Shared<J>>) -> PageKeeper<J> {
        PageKeeper {
            alloc,
            reader,
            pages: Vec::new(alloc),
            rests: 1,
            got: Ok(()),
        }
    }

    /// The pages that it got, if there was memory for all.
    pub fn into_pages(self) -> Result<Vec<KeptPage<J>>, NoMemory> {
        let PageKeeper { pages, got, .. } = self;
        got?;
        Ok(pages)
    }

    /// Whether the last page is of so many entries.
    fn has_of(&self, upto: u64) -> bool {
        match self.pages.last() {
            Some(last) => last.page.upto == upto,
            None => false,
        }
    }

    /// Keeps a page of what the reader has seen, unless it has one of as many entries.
    fn keep(&mut self, page: BrowsePage) -> Result<(), NoMemory>
        requires { page ≡ page_after self.old.reader.known first_form most_rows }
    {
        if !self.has_of(page.upto) {
            let of = self.reader.seen();
            self.pages.push(KeptPage { page, of })?;
        }
        Ok(())
    }

    /// Keeps every second page, and rests twice as long from now on.
    fn thin(&mut self) {
        let half = self.pages.len() / 2;
        for place in 0..half {
            self.pages.swap(place, 2 * place);
        }
        self.pages.truncate(half);
        self.rests = self.rests.saturating_mul(2);
    }

    /// Gets a page; whether it may get more.
    fn page_once(&mut self) -> Result<bool, NoMemory> {
        let first = first_form(self.alloc);
        match self.reader.page(self.alloc, &first, MOST_ROWS) {
            Ok(page) => {
                self.keep(page)?;
                if self.pages.len() >= MOST_PAGES {
                    self.thin();
                }
                Ok(true)
            }
            Err(PageFault::Gone) => Ok(false),
            Err(PageFault::NoMemory) => Err(NoMemory),
        }
    }

    /// Rests between two pages, or until the loaders have ended.
    fn rest<H: Wait>(&self, rt: &H, meanwhile: &Meanwhile) {
        for _ in 0..self.rests {
            if meanwhile.is_over() {
                break;
            }
            meanwhile.rest(rt);
        }
    }

    /// Gets pages until the loaders have ended, or not so long.
    fn page_on<H: Wait>(&mut self, rt: &H, meanwhile: &Meanwhile) -> Result<(), NoMemory> {
        for _ in 0..LOOKS {
            if meanwhile.is_over() || !self.page_once()? {
                break;
            }
            self.rest(rt, meanwhile);
        }
        Ok(())
    }
}

impl<J: Naming> Pager for PageKeeper<J> {
    ghost can_page = { λ _. Unit {0} };

    ghost has_paged = { λ _ _. Unit {0} };

    fn page_while<H: Wait>(&mut self, rt: &H, meanwhile: &Meanwhile) {
        self.got = self.page_on(rt, meanwhile);
    }
}
