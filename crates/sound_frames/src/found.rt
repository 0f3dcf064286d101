//! What was found of a log, in its order.
ghost use Rattle.std.specs.Prelude.{◌≡◌, ◌++◌, ◌∷◌, ◌↔◌, ℕ, [], List, length, IsTrue, OnOk};
ghost use Rattle.marc_types.specs.declared.entry.Entry.{Entry as AnyEntry};
ghost use Rattle.entry_record.specs.History.{IsWithin};
ghost use Rattle.sound_frames.specs.Looking.{HasLeft};
ghost use Rattle.sound_frames.specs.Looking.{as_list};

use crate::Damage;
use entry_history::EntryPayload;
use entry_record::Prepared;
use marc_types::{Limits, NoMemory};
use std::alloc::Global;

/// The entries and damages that were found.
#[derive(Drop)]
pub(crate) struct Found {
    pub entries: Vec<EntryPayload>,
    pub damages: Vec<Damage>,
    // What the entries leave of the most bytes; none where they have more.
    pub left: Option<u64>,
}

/// What an entry leaves of so many bytes.
#[tactic(auto, using(entry_record::proofs::Sizes::left_more, entry_record::proofs::Sizes::left_passed, entry_record::proofs::Sizes::passed_more))]
fn left_behind(left: Option<u64>, item: &Prepared) -> Option<u64>
    ensures { (bytes : ℕ) (before : List AnyEntry) → HasLeft bytes before left → HasLeft bytes (before ++ item.now ∷ []) result }
{
    let size = item.size();
    match left {
        Some(left) if size <= left => Some(left - size),
        _ => None,
    }
}

/// Takes entries behind others, and their bytes off from those that are left.
fn take_all(
    alloc: Global,
    items: &[Prepared],
    entries: &mut Vec<EntryPayload>,
    left: &mut Option<u64>,
) -> Result<(), NoMemory>
    ensures entries { OnOk result (entries.new.items ≡ entries.old.items ++ items.now) }
    ensures left { OnOk result ((bytes : ℕ) → HasLeft bytes entries.old.items left.old → HasLeft bytes entries.new.items left.new) }
{
    for item in items {
        *left = left_behind(*left, item);
        entries.push(EntryPayload::of(alloc, item)?)?;
    }
    Ok(())
}

impl Found {
    /// Nothing yet.
    pub(crate) fn new(alloc: Global, limits: Limits) -> Found
        ensures entries { result.entries.items ≡ [] }
        ensures damages { result.damages.items ≡ [] }
        ensures left { HasLeft limits.bytes [] result.left }
    {
        Found {
            entries: Vec::new(alloc),
            damages: Vec::new(alloc),
            left: Some(limits.bytes),
        }
    }

    /// Takes entries.
    pub(crate) fn take(&mut self, alloc: Global, items: &[Prepared]) -> Result<(), NoMemory>
        ensures entries { OnOk result (self.new.entries.items ≡ self.old.entries.items ++ items.now) }
        ensures damages { self.new.damages.items ≡ self.old.damages.items }
        ensures left { OnOk result ((bytes : ℕ) → HasLeft bytes self.old.entries.items self.old.left → HasLeft bytes self.new.entries.items self.new.left) }
    {
        take_all(alloc, items, &mut self.entries, &mut self.left)
    }

    /// Notes a damage, where there is one.
    pub(crate) fn note(&mut self, damage: Option<Damage>) -> Result<(), NoMemory>
        ensures damages { OnOk result (self.new.damages.items ≡ self.old.damages.items ++ as_list damage) }
        ensures entries { self.new.entries.items ≡ self.old.entries.items }
        ensures left { self.new.left ≡ self.old.left }
    {
        if let Some(damage) = damage {
            self.damages.push(damage)?;
        }
        Ok(())
    }

    /// Whether the entries are within limits.
    #[tactic(auto, using(entry_record::proofs::Sizes::within_both, entry_record::proofs::Sizes::within_few, entry_record::proofs::Sizes::within_short))]
    pub(crate) fn is_within(&self, limits: Limits) -> bool
        ensures { HasLeft limits.bytes self.now.entries.items self.now.left → IsTrue result ↔ IsWithin limits self.now.entries.items }
    {
        self.entries.len() as u64 <= limits.entries && self.left.is_some()
    }
}
