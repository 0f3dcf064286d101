//! Pages before and behind what a writer takes, and the page of a list that stays as it is.
ghost use Rattle.std.specs.Prelude.{◌≡◌, []};

use super::pieces::{first_page, opened};
use browse_readers::{BrowseReader, Naming, Opened, Still};
use heading_rows::{BrowsePage, BrowseRow, Heading, Headings, Table};
use marc_types::{Entries, Entry, NoMemory, Text, TryCopy, can_be_code};
use reading::prepare;
use std::alloc::Global;
use std::marker::Brand;
use std::sync::Wait;
use std::test::Fail;

/// Two authorities whose headings are one form, a book, and the second authority with a year.
const RECORDS: [&[u8]; 4] = [
    b"00085nz  a2200061n  4500001000300000003000400003100001600007\x1en1\x1eDLC\x1e1 \x1faSmith, John\x1e\x1d",
    b"00086nz  a2200061n  4500001000300000003000400003100001700007\x1en2\x1eDLC\x1e1 \x1faSMITH, JOHN.\x1e\x1d",
    b"00070nam a2200049 a 4500001000300000100001700003\x1eb2\x1e1 \x1faSmith, John.\x1e\x1d",
    b"00093nz  a2200061n  4500001000300000003000400003100002400007\x1en2\x1eDLC\x1e1 \x1faSmith, John,\x1fd1900-\x1e\x1d",
];

/// The rows behind them.
const ROWS: &[u8] = b"(DLC)n1 smith, john\n(DLC)n2 smith, john 1900\n";

/// The entry of a record; none where the library's code is none.
fn entry_of(alloc: Global, library: &Text, piece: &[u8]) -> Option<Entry> {
    if !can_be_code(library.as_bytes()) {
        return None;
    }
    let prepared = prepare(alloc, piece, library, 0, 1).ok()?;
    prepared.entry().copy(alloc).ok()
}

/// The entries of the records.
fn entries(alloc: Global) -> Option<Entries> {
    let library = Text::from_str(alloc, "ULIB").ok()?;
    let mut made = Vec::new(alloc);
    for piece in &RECORDS {
        made.push(entry_of(alloc, &library, piece)?).ok()?;
    }
    Some(Entries::from_vec(made))
}

fn headings_of(alloc: Global, entries: &Entries) -> Result<Headings, NoMemory> {
    let mut made = Vec::new(alloc);
    for entry in entries.as_slice() {
        made.push(Heading::of_entry(alloc, entry)?)?;
    }
    Ok(Headings::from_vec(made))
}

fn append_row(out: &mut Vec<u8>, row: &BrowseRow) -> Result<(), NoMemory> {
    out.extend_from_slice(b"(")?;
    out.extend_from_slice(row.key.code.as_bytes())?;
    out.extend_from_slice(b")")?;
    out.extend_from_slice(row.key.number.as_bytes())?;
    for item in row.form.items.as_slice() {
        out.extend_from_slice(b" ")?;
        out.extend_from_slice(item.text.as_bytes())?;
    }
    out.extend_from_slice(b"\n")?;
    Ok(())
}

/// Whether a page is of the four entries, with their rows.
fn is_of_all(alloc: Global, page: &BrowsePage) -> Result<bool, NoMemory> {
    let mut lines = Vec::new(alloc);
    for row in page.rows.as_slice() {
        append_row(&mut lines, row)?;
    }
    Ok(page.upto == 4 && lines.as_slice() == ROWS)
}

/// Whether a page is of no entry.
fn is_of_none(page: &BrowsePage) -> bool {
    page.upto == 0 && page.rows.is_empty()
}

/// Whether a reader is shown no row before its writer takes the entries, and their rows behind that, once it learnt what was taken.
#[tactic(auto, using(crate::proofs::Empty::no_rows))]
fn shows_what_is_taken<J: Naming, H: Wait>(
    rt: &H,
    alloc: Global,
    named: Opened,
    headings: Headings,
) -> Option<bool>
    requires book { named.seen.book ≡ J.book }
    requires base { J.base ≡ [] }
{
    let tables = (Table::new(alloc), Table::new(alloc));
    let (mut writer, mut reader, _other) = opened::<J, &H>(alloc, rt, named, tables)?;
    let before = first_page(alloc, &mut reader).ok()?;
    writer.take(headings).ok()?;
    reader.learn(&writer.tell());
    let behind = first_page(alloc, &mut reader).ok()?;
    let shown = is_of_all(alloc, &behind).ok()?;
    Some(is_of_none(&before) && shown)
}

/// Neither page meets `Gone`.
#[test]
fn pages_around_a_take(rt: HostRuntime) -> Result<(), Fail> {
    let alloc = rt.alloc();
    let entries = entries(alloc).ok_or("four entries")?;
    let headings = headings_of(alloc, &entries)?;
    let shown = shows_what_is_taken::<Brand, _>(&rt, alloc, Opened::new(), headings);
    assert!(rt; shown == Some(true));
    Ok(())
}

fn still_of(alloc: Global, entries: &Entries) -> Result<Still, NoMemory> {
    Still::new(alloc, entries)
}

#[test]
fn page_of_a_list_that_stays(rt: HostRuntime) -> Result<(), Fail> {
    let alloc = rt.alloc();
    let entries = entries(alloc).ok_or("four entries")?;
    let mut reader = BrowseReader::new(still_of(alloc, &entries)?);
    let page = first_page(alloc, &mut reader).ok().ok_or("a page")?;
    assert!(rt; is_of_all(alloc, &page)?);
    Ok(())
}
