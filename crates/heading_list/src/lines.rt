//! The lines of a list of headings.
ghost use Rattle.std.specs.Prelude.{◌≡◌, ◌++◌, OnOk, IfOk, unwrap_or};
ghost use Rattle.std.specs.List.{flat_map};
ghost use Rattle.heading_list.specs.Counting.{count_of};
ghost use Rattle.heading_list.specs.Lines.{key_column, printed_byte, row_line, text_column};

use crate::links::Links;
use crate::row::{ListRow, Role};
use heading_fields::add_key;
use itoa::Buffer;
use marc_types::NoMemory;
use std::alloc::Global;
use std::collections::BTreeSet;

const TABULATOR: u8 = b'\t';

const BLANK: u8 = b' ';

const LINE_FEED: u8 = b'\n';

const DELETE: u8 = 127;

/// A byte as lines have it: a blank for a control character.
fn printed(byte: u8) -> u8
    ensures { result ≡ printed_byte byte }
{
    if byte < BLANK || byte == DELETE {
        BLANK
    } else {
        byte
    }
}

/// A text, and a tabulator behind it.
fn add_text(text: &mut Vec<u8>, bytes: &[u8]) -> Result<(), NoMemory>
    ensures { OnOk result (text.new.items ≡ text.old.items ++ text_column bytes.now) }
{
    for &byte in bytes {
        text.push(printed(byte))?;
    }
    text.push(TABULATOR)?;
    Ok(())
}

/// What stands behind the text of a row, to whose key so many fields are linked.
fn add_key_column(text: &mut Vec<u8>, row: &ListRow, linked: u64) -> Result<(), NoMemory>
    ensures { OnOk result (text.new.items ≡ text.old.items ++ key_column linked row.now.role row.now.key) }
{
    match row.role {
        Role::Established => {
            add_key(text, &row.key)?;
            text.push(TABULATOR)?;
            text.extend_from_slice(Buffer::new().format(linked).as_bytes())?;
            Ok(())
        }
        Role::SeeFrom => {
            text.extend_from_slice(b"-> ")?;
            add_key(text, &row.key)?;
            Ok(())
        }
    }
}

fn add_row(text: &mut Vec<u8>, row: &ListRow, linked: u64) -> Result<(), NoMemory>
    ensures { OnOk result (text.new.items ≡ text.old.items ++ row_line linked row.now) }
{
    add_text(text, row.text.as_slice())?;
    add_key_column(text, row, linked)?;
    text.push(LINE_FEED)?;
    Ok(())
}

/// The lines of rows in their order, each with the count of its key.
pub(crate) fn lines(
    alloc: Global,
    rows: &BTreeSet<ListRow>,
    links: &Links,
) -> Result<Vec<u8>, NoMemory>
    ensures { IfOk result (λ text. text.items ≡ flat_map (λ r. row_line (unwrap_or (count_of links.now r.key) 0) r) rows.now.keys) }
{
    let mut text = Vec::new(alloc);
    for row in rows {
        add_row(&mut text, row, links.of(&row.key))?;
    }
    Ok(text)
}
