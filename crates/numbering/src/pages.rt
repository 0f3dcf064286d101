ghost use Rattle.std.specs.Prelude.{◌≡◌, ◌<◌, ◌≤◌, ℕ, None, Some, true, length, slice_index_or, option_copied, OnOk};
ghost use Rattle.std.specs.Option.{option_copied_mut};
ghost use Rattle.std.specs.Borrow.{sem};
ghost use Rattle.numbering.specs.PageSize.{rows_of_page};

use marc_types::NoMemory;
use std::alloc::Global;

/// How many rows a page has.
pub const PAGE: usize = 1_024;

/// A type with a blank value, which stands where nothing was put.
pub trait Blank: Drop {
    ghost blank: { Self };

    /// The blank value.
    fn blank(alloc: Global) -> Self
        ensures { result ≡ blank };
}

impl<T: Drop> Blank for Option<T> {
    ghost blank = { None };

    fn blank(_alloc: Global) -> Option<T> {
        None
    }
}

/// Rows by number, in pages. A page where nothing was put has no rows; the first time that one of them is reached it takes the room of
/// all at once. So no row is ever moved.
#[derive(Drop)]
pub struct Pages<T> {
    pages: Vec<Vec<T>>,
}

// Blank rows from the first that a page lacks.
fn fill<T: Blank>(alloc: Global, page: &mut Vec<T>) -> Result<(), NoMemory>
    ensures same { (i : ℕ) → slice_index_or page.new.items i T.blank ≡ slice_index_or page.old.items i T.blank }
    ensures longer { length page.old.items ≤ length page.new.items }
    ensures whole { OnOk result (rows_of_page ≤ length page.new.items) }
{
    if page.is_empty() {
        page.reserve_exact(PAGE)?;
    }
    while page.len() < PAGE {
        page.push(T::blank(alloc))?;
    }
    Ok(())
}

impl<T> Pages<T> {
    ghost use Rattle.numbering.specs.Pages.{there, is_there, lends_row, lends_get};

    /// No row is there.
    #[tactic(auto, unfolding(crate::specs::Pages::there))]
    pub fn new(alloc: Global) -> Pages<T>
        ensures { (n : ℕ) → there result n ≡ None }
    {
        Pages {
            pages: Vec::new(alloc),
        }
    }

    /// The row of a number, if it is there.
    #[tactic(auto, unfolding(crate::specs::Pages::there))]
    pub fn get(&self, n: u32) -> Option<&T>
        ensures { option_copied result ≡ there self.now n }
    {
        let page = self.pages.get(n as usize / PAGE)?;
        page.get(n as usize % PAGE)
    }

    /// The row of a number that is there, for writing.
    pub fn row_mut(&mut self, n: u32) -> &mut T
        requires { is_there self.old n ≡ true }
        ensures* writes_back { sem 𝓛 (lends_row T.row self.entry n result) }
        ensures value { Some result.now ≡ there self.old n }
    {
        let page = &mut self.pages[n as usize / PAGE];
        &mut page[n as usize % PAGE]
    }

    /// The row of a number for writing, if it is there.
    pub fn get_mut(&mut self, n: u32) -> Option<&mut T>
        ensures* writes_back { sem 𝓛 (lends_get T.row self.entry n result) }
        ensures value { option_copied_mut result ≡ there self.old n }
    {
        if self.get(n).is_none() {
            return None;
        }
        Some(self.row_mut(n))
    }

    // Pages without rows, until this one is there.
    fn lengthen(&mut self, alloc: Global, page: usize) -> Result<(), NoMemory>
    where
        T: Drop,
        ensures same { (m : ℕ) → there self.new m ≡ there self.old m }
        ensures long { OnOk result (page < length self.new.pages.items) }
    {
        while self.pages.len() <= page {
            self.pages.push(Vec::new(alloc))?;
        }
        Ok(())
    }
}

impl<T: Blank> Pages<T> {
    ghost use Rattle.numbering.specs.Pages.{there, is_there, row_or};

    /// Makes the row of a number be there: it and the others of its page that aren't there are blank. `NoMemory` changes no row.
    pub fn reach(&mut self, alloc: Global, n: u32) -> Result<(), NoMemory>
        ensures same { (m : ℕ) → row_or T.blank self.new m ≡ row_or T.blank self.old m }
        ensures stays { (m : ℕ) → is_there self.old m ≡ true → is_there self.new m ≡ true }
        ensures there { OnOk result (is_there self.new n ≡ true) }
    {
        let page = n as usize / PAGE;
        self.lengthen(alloc, page)?;
        fill(alloc, &mut self.pages[page])
    }
}
