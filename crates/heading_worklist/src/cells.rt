//! The cells of a line, and words that are put into them.
ghost use Rattle.std.specs.Prelude.{◌≡◌, ◌++◌, map, OnOk};
ghost use Rattle.std.specs.List.{flat_map};
ghost use Rattle.std.specs.Fmt.{decimal};
ghost use Rattle.catalogue_tables.specs.Sharing.{shown_keys};
ghost use Rattle.catalogue_rules.specs.Output.{tag_text};
ghost use Rattle.heading_worklist.specs.Csv.{line_bytes, then_cell};
ghost use Rattle.heading_worklist.specs.Lines.{column_names, line_of_cells};
ghost use Rattle.heading_worklist.specs.Texts.{first_keys, keys_text};

use crate::quoting::{add_cell, begin_line, end_line};
use heading_fields::add_key;
use itoa::Buffer;
use marc_types::{Key, Tag};
use std::alloc::{AllocError, Global};
use std::marker::Model;

/// The texts of a line's cells.
#[derive(Drop)]
pub struct Cells {
    pub state: Vec<u8>,
    pub kind: Vec<u8>,
    pub heading: Vec<u8>,
    pub count: Vec<u8>,
    pub base_count: Vec<u8>,
    pub record_key: Vec<u8>,
    pub library: Vec<u8>,
    pub title: Vec<u8>,
    pub tag: Vec<u8>,
    pub field: Vec<u8>,
    pub identifiers: Vec<u8>,
    pub awaits: Vec<u8>,
    pub candidate_count: Vec<u8>,
    pub candidates: Vec<u8>,
    pub candidate_headings: Vec<u8>,
    pub why: Vec<u8>,
}

impl Model for Cells {
    ghost use Rattle.heading_worklist.specs.Lines.{Cells};

    ghost Value = { Cells };

    ghost view = { λ c. record {
      state = c.state.items;
      kind = c.kind.items;
      heading = c.heading.items;
      count = c.count.items;
      base_count = c.base_count.items;
      record_key = c.record_key.items;
      library = c.library.items;
      title = c.title.items;
      tag = c.tag.items;
      field = c.field.items;
      identifiers = c.identifiers.items;
      awaits = c.awaits.items;
      candidate_count = c.candidate_count.items;
      candidates = c.candidates.items;
      candidate_headings = c.candidate_headings.items;
      why = c.why.items;
    } };
}

/// The cells of texts, each behind another.
fn add_cells(line: &mut Vec<u8>, texts: &[&[u8]]) -> Result<(), AllocError>
    ensures { OnOk result (line.new.items ≡ line.old.items ++ flat_map then_cell (map (λ text. text.now) texts.now)) }
{
    for text in texts {
        add_cell(line, text)?;
    }
    Ok(())
}

impl Cells {
    /// Makes the line of the cells. What stood in `line` goes.
    pub fn make_line(&self, line: &mut Vec<u8>) -> Result<(), AllocError>
        ensures { OnOk result (line.new.items ≡ line_bytes (line_of_cells self.now)) }
    {
        begin_line(line, &self.state)?;
        add_cells(
            line,
            &[
                &self.kind,
                &self.heading,
                &self.count,
                &self.base_count,
                &self.record_key,
                &self.library,
                &self.title,
                &self.tag,
                &self.field,
                &self.identifiers,
                &self.awaits,
                &self.candidate_count,
                &self.candidates,
                &self.candidate_headings,
                &self.why,
            ],
        )?;
        end_line(line)
    }
}

const COLUMN_NAMES: &[u8] =
    b"\"state\",\"kind\",\"heading\",\"count\",\"base_count\",\"record\",\"library\",\"title\",\"tag\",\"field\",\"identifiers\",\"awaits\",\"candidate_count\",\"candidates\",\"candidate_headings\",\"why\"\r\n";

/// The first line: the columns' names.
#[tactic(auto, unfolding(crate::specs::Csv::shown))]
pub fn column_names() -> &'static [u8]
    ensures { result.now ≡ line_bytes column_names }
{
    COLUMN_NAMES
}

/// A number, in decimal.
pub fn add_number(cell: &mut Vec<u8>, number: u64) -> Result<(), AllocError>
    ensures { OnOk result (cell.new.items ≡ cell.old.items ++ decimal number) }
{
    cell.extend_from_slice(Buffer::new().format(number).as_bytes())
}

/// The three characters of a tag.
pub fn add_tag(cell: &mut Vec<u8>, tag: &Tag) -> Result<(), AllocError>
    ensures { OnOk result (cell.new.items ≡ cell.old.items ++ tag_text tag.now) }
{
    cell.extend_from_slice(&[tag.a, tag.b, tag.c])
}

pub(crate) fn first_keys<'a, 'k>(keys: &'a [&'k Key]) -> &'a [&'k Key]
    ensures { shown_keys result.now ≡ first_keys (shown_keys keys.now) }
{
    if keys.len() > 20 { &keys[..20] } else { keys }
}

/// The texts of the first twenty keys.
pub fn add_keys(cell: &mut Vec<u8>, keys: &[&Key]) -> Result<(), AllocError>
    ensures { OnOk result (cell.new.items ≡ cell.old.items ++ keys_text (shown_keys keys.now)) }
{
    let [first, others @ ..] = first_keys(keys) else {
        return Ok(());
    };
    add_key(cell, first)?;
    for key in others {
        cell.extend_from_slice(b" | ")?;
        add_key(cell, key)?;
    }
    Ok(())
}
