//! How many fields are linked to each authority.
ghost use Rattle.std.specs.Prelude.{◌≡◌, ◌+◌, map, IfOk, OnOk, if◌then◌else◌};
ghost use Rattle.std.specs.List.{count_by};
ghost use Rattle.marc_types.specs.Order.{same_key};
ghost use Rattle.marc_types.specs.declared.key.Key.{Key as AnyKey};
ghost use Rattle.numbered_store.specs.Kept.{kept_record, shown_row};
ghost use Rattle.catalogue_rules.specs.Settle.{is_linked_to};
ghost use Rattle.heading_worklist.specs.Counting.{AreLinks, is_tied_to, linked_times};
ghost use Rattle.heading_worklist.specs.Lines.{links_in};

use crate::linked_key::LinkedKey;
use catalogue_core::Engine;
use marc_types::{Class, Key, NoMemory, Tie};
use numbered_store::{RowMap, StoredRecord};
use std::alloc::Global;
use std::collections::BTreeMap;

/// How many fields are linked to the authority under each key.
pub(crate) type LinkCounts<'a> = BTreeMap<LinkedKey<'a>, u64>;

/// How many fields are linked to the authority under a key.
pub(crate) fn linked_times<'a>(counts: &LinkCounts<'a>, key: &'a Key) -> u64
    ensures { result ≡ linked_times counts.now key.now }
{
    counts.get(&LinkedKey { key }).copied().unwrap_or(0)
}

fn count_link<'a>(counts: &mut LinkCounts<'a>, key: &'a Key) -> Result<(), NoMemory>
    ensures { OnOk result ((k : AnyKey) → linked_times counts.new k ≡ linked_times counts.old k + (if same_key k key.now then 1 else 0)) }
{
    let so_far = linked_times(counts, key);
    if so_far == u64::MAX {
        return Err(NoMemory);
    }
    counts.insert(LinkedKey { key }, so_far + 1)?;
    Ok(())
}

fn count_tie<'a>(counts: &mut LinkCounts<'a>, tie: &'a Tie) -> Result<(), NoMemory>
    ensures { OnOk result ((k : AnyKey) → linked_times counts.new k ≡ linked_times counts.old k + (if is_tied_to k tie.now then 1 else 0)) }
{
    match &tie.key {
        Some(linked) => count_link(counts, linked.key()),
        None => Ok(()),
    }
}

fn count_ties<'a>(counts: &mut LinkCounts<'a>, ties: &'a [Tie]) -> Result<(), NoMemory>
    ensures { OnOk result ((k : AnyKey) → linked_times counts.new k ≡ linked_times counts.old k + count_by (is_tied_to k) ties.now) }
{
    for tie in ties {
        count_tie(counts, tie)?;
    }
    Ok(())
}

fn count_record<'a>(counts: &mut LinkCounts<'a>, kept: &'a StoredRecord) -> Result<(), NoMemory>
    ensures { OnOk result ((k : AnyKey) →
        linked_times counts.new k ≡ linked_times counts.old k + count_by (is_linked_to k) (kept_record kept.now).fields) }
{
    match kept.ties() {
        Some(ties) => count_ties(counts, ties),
        None => Ok(()),
    }
}

fn count_rows<'a>(counts: &mut LinkCounts<'a>, rows: &RowMap<'a>) -> Result<(), NoMemory>
    ensures { OnOk result ((k : AnyKey) → linked_times counts.new k ≡ linked_times counts.old k + links_in k (map shown_row rows.now.entries)) }
{
    for (_key, kept) in rows {
        count_record(counts, *kept)?;
    }
    Ok(())
}

/// How many fields are linked to each authority, by one pass over the ties of all records.
pub(crate) fn links_of(alloc: Global, engine: &Engine) -> Result<LinkCounts<'_>, NoMemory>
    ensures { IfOk result (AreLinks engine.now.state) }
{
    let authorities = engine.rows(alloc, Class::Authority)?;
    let bibliographic = engine.rows(alloc, Class::Bibliographic)?;
    let mut counts = BTreeMap::new(alloc);
    count_rows(&mut counts, &authorities)?;
    count_rows(&mut counts, &bibliographic)?;
    Ok(counts)
}
