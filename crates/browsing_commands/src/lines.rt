//! The lines of pages.
ghost use Rattle.std.specs.Prelude.{◌≡◌, ◌++◌, map, codes, IfOk, OnOk};
ghost use Rattle.std.specs.Fmt.{decimal};
ghost use Rattle.std.specs.List.{flat_map};
ghost use Rattle.catalogue_rules.specs.Lines.{line, then_words};
ghost use Rattle.browsing_commands.specs.Pages.{page_lines, pages_text, row_line};

use heading_fields::add_key;
use heading_rows::{BrowsePage, BrowseRow};
use itoa::Buffer;
use marc_types::{Item, NoMemory};
use std::alloc::Global;

const BLANK: u8 = b' ';

const LINE_FEED: u8 = b'\n';

/// Each text behind a blank.
fn add_texts(text: &mut Vec<u8>, items: &[Item]) -> Result<(), NoMemory>
    ensures { OnOk result (text.new.items ≡ text.old.items ++ then_words (map (λ item. item.text) items.now)) }
{
    for item in items {
        text.push(BLANK)?;
        text.extend_from_slice(item.text.as_bytes())?;
    }
    Ok(())
}

fn add_row(text: &mut Vec<u8>, row: &BrowseRow) -> Result<(), NoMemory>
    ensures { OnOk result (text.new.items ≡ text.old.items ++ row_line row.now) }
{
    add_key(text, &row.key)?;
    add_texts(text, row.form.items.as_slice())?;
    text.push(LINE_FEED)?;
    Ok(())
}

/// The line of a page's number.
fn add_number(text: &mut Vec<u8>, upto: u64) -> Result<(), NoMemory>
    ensures { OnOk result (text.new.items ≡ text.old.items ++ line (codes "AT " ++ decimal upto)) }
{
    text.extend_from_slice(b"AT ")?;
    text.extend_from_slice(Buffer::new().format(upto).as_bytes())?;
    text.push(LINE_FEED)?;
    Ok(())
}

fn add_page(text: &mut Vec<u8>, page: &BrowsePage) -> Result<(), NoMemory>
    ensures { OnOk result (text.new.items ≡ text.old.items ++ page_lines page.now) }
{
    add_number(text, page.upto)?;
    for row in page.rows.as_slice() {
        add_row(text, row)?;
    }
    Ok(())
}

/// The lines of pages, one after the other.
pub fn pages_text(alloc: Global, pages: &[BrowsePage]) -> Result<Vec<u8>, NoMemory>
    ensures { IfOk result (λ text. text.items ≡ pages_text pages.now) }
{
    let mut text = Vec::new(alloc);
    for page in pages {
        add_page(&mut text, page)?;
    }
    Ok(text)
}
