//! The list of a catalogue's headings.
ghost use Rattle.std.specs.Prelude.{◌≡◌, None, Some, [], map, unwrap_or, IfOk, OnOk, if◌then◌else◌};
ghost use Rattle.std.specs.List.{flat_map, list_any};
ghost use Rattle.catalogue_rules.specs.Settle.{state_of};
ghost use Rattle.command_words.specs.Asked.{range_asked};
ghost use Rattle.marc_types.specs.Order.{same_key};
ghost use Rattle.marc_types.specs.declared.key.Key.{Key};
ghost use Rattle.heading_list.specs.Collecting.{HasFirst};
ghost use Rattle.heading_list.specs.Counting.{count_of};
ghost use Rattle.heading_list.specs.Telling.{headings_of};
ghost use Rattle.heading_list.specs.Rows.{first_of, rows_of_authority};
ghost use Rattle.numbered_store.specs.Kept.{shown_row};

use crate::authorities::put_authorities;
use crate::first_rows::FirstRows;
use crate::lines::lines;
use crate::links::Links;
use crate::row::ListRow;
use crate::typed::typed_form;
use catalogue_core::Catalogue;
use command_words::HeadingRange;
use marc_types::{Class, NoMemory, TryCopy};
use numbered_store::RowMap;
use std::alloc::Global;
use std::collections::BTreeSet;

/// A count for the key of each row, which begins at 0.
fn counted(alloc: Global, rows: &BTreeSet<ListRow>) -> Result<Links, NoMemory>
    ensures { IfOk result (λ links. (key : Key) →
        count_of links key ≡ (if list_any (λ r. same_key key r.key) rows.now.keys then Some 0 else None)) }
{
    let mut links = Links::new(alloc);
    for row in rows {
        links.begin(row.key.copy(alloc)?)?;
    }
    Ok(links)
}

/// The list of the headings of a kind from a typed heading on, so many at most, of the state behind a catalogue's history, of which nothing
/// is staged. It is made in memory.
pub fn headings_of_catalogue(
    alloc: Global,
    core: &Catalogue,
    range: HeadingRange<'_>,
) -> Result<Vec<u8>, NoMemory>
    requires { core.now.staged ≡ [] }
    ensures { IfOk result (λ bytes. bytes.items ≡ headings_of (range_asked range.entry) (state_of core.now.history)) }
{
    let authorities = core.engine().rows(alloc, Class::Authority)?;
    let from = typed_form(alloc, range.kind, range.from)?;
    let mut first = FirstRows::new(alloc, from, range.most);
    put_authorities(alloc, &mut first, &authorities)?;
    let mut links = counted(alloc, &first.rows)?;
    links.add_records(&authorities)?;
    links.add_records(&core.engine().rows(alloc, Class::Bibliographic)?)?;
    lines(alloc, &first.rows, &links)
}
