//! A writer with its readers, and the first page of a reader.
ghost use Rattle.std.specs.Prelude.{◌≡◌, false, IfSome};
ghost use Rattle.heading_rows.specs.Listing.{table_of};

use browse_readers::{
    BrowseReader, BrowseWriter, Naming, Opened, PageFault, Shared, Window, open_browse,
};
use heading_rows::{BrowsePage, Table};
use marc_types::{Form, Items, Kind};
use std::alloc::Global;
use std::sync::Wait;

/// A writer that has taken nothing, and two readers.
pub(crate) fn opened<J: Naming, R: Wait + Drop>(
    alloc: Global,
    rt: R,
    opened: Opened,
    tables: (Table, Table),
) -> Option<
    (
        BrowseWriter<J, R>,
        BrowseReader<Shared<J>>,
        BrowseReader<Shared<J>>,
    ),
>
    requires book { opened.seen.book ≡ J.book }
    requires tables { (tables.0 ≡ table_of J.base) × (tables.1 ≡ table_of J.base) }
    ensures { IfSome result (λ made. made.0 ≡ record { taken = J.base; spent = false }) }
{
    let (writer, readers) = open_browse(alloc, rt, opened, tables, 2).ok()?;
    let mut readers = readers.into_vec();
    let one = readers.pop()?;
    let other = readers.pop()?;
    Some((writer, one, other))
}

/// The first page that a reader is shown.
pub(crate) fn first_page<W: Window>(
    alloc: Global,
    reader: &mut BrowseReader<W>,
) -> Result<BrowsePage, PageFault> {
    let first = Form {
        kind: Kind::Personal,
        items: Items::from_vec(Vec::new(alloc)),
    };
    reader.page(alloc, &first, 20)
}
