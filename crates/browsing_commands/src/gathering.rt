//! The pages of the one history, out of those that a reader got.
ghost use Rattle.std.specs.Prelude.{◌≡◌, ◌≤◌, false, length, IfOk};
ghost use Rattle.browsing_commands.specs.Pages.{ArePagesOf};

use crate::paging::{KeptPage, MOST_PAGES, MOST_ROWS, first_form};
use browse_readers::{BrowseWriter, Naming};
use heading_rows::BrowsePage;
use marc_types::{NoMemory, Sequence};
use std::alloc::Global;
use std::sync::Wait;

/// Pages in a row.
pub type BrowsePages = Sequence<BrowsePage>;

/// The pages that are of fronts of all that the writer took, for numbers that rise from the least, and behind them the page of all.
pub fn pages_of<J: Naming, R: Wait + Drop>(
    alloc: Global,
    writer: &mut BrowseWriter<J, R>,
    kept: Vec<KeptPage<J>>,
    least: u64,
) -> Result<BrowsePages, NoMemory>
    requires { least ≤ length writer.old.taken }
    ensures { IfOk result (ArePagesOf least writer.old.taken) }
{
    let whole = writer.tell();
    let all = writer.taken();
    let mut pages = Vec::new(alloc);
    // the least number that the next page may have
    let mut next = least;
    for KeptPage { page, of } in kept {
        if next <= page.upto
            && page.upto < all
            && pages.len() + 1 < MOST_PAGES
            && whole.covers(&of)
        {
            next = page.upto + 1;
            pages.push(page)?;
        }
    }
    let first = first_form(alloc);
    pages.push(writer.page(alloc, &first, MOST_ROWS)?)?;
    Ok(BrowsePages::from_vec(pages))
}
