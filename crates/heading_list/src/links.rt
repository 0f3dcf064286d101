//! How many fields are linked to each of some keys.
ghost use Rattle.std.specs.Prelude.{◌≡◌, ℕ, None, Some, map, OnOk, if◌then◌else◌, unwrap_or};
ghost use Rattle.std.specs.List.{count_by};
ghost use Rattle.marc_types.specs.Order.{same_key};
ghost use Rattle.marc_types.specs.declared.key.Key.{Key as AnyKey};
ghost use Rattle.heading_list.specs.Counting.{CountsRose, count_of, is_tied_to};
ghost use Rattle.heading_list.specs.Lines.{linked_of_row, linked_of_rows};
ghost use Rattle.numbered_store.specs.Kept.{kept_record, shown_row};

use marc_types::{Key, NoMemory, Tie};
use numbered_store::{RowMap, StoredRecord};
use std::alloc::Global;
use std::collections::BTreeMap;

/// Some keys, each with a count.
#[derive(Drop)]
pub(crate) struct Links {
    pub(crate) counts: BTreeMap<Key, u64>,
}

impl Links {
    /// No key is counted.
    pub(crate) fn new(alloc: Global) -> Links
        ensures { (key : AnyKey) → count_of result key ≡ None }
    {
        Links {
            counts: BTreeMap::new(alloc),
        }
    }

    /// A key is counted from now on.
    pub(crate) fn begin(&mut self, key: Key) -> Result<(), NoMemory>
        ensures { OnOk result ((other : AnyKey) →
            count_of self.new other ≡ (if same_key other key then Some 0 else count_of self.old other)) }
    {
        self.counts.insert(key, 0)?;
        Ok(())
    }

    /// One more field is linked to a key. Want of memory is told where its count would pass a u64.
    fn add(&mut self, key: &Key) -> Result<(), NoMemory>
        ensures { OnOk result (CountsRose self.old self.new (λ other. if same_key other key.now then 1 else 0)) }
    {
        match self.counts.get_mut(key) {
            Some(count) => {
                if *count == u64::MAX {
                    return Err(NoMemory);
                }
                *count += 1;
                Ok(())
            }
            None => Ok(()),
        }
    }

    fn add_tie(&mut self, tie: &Tie) -> Result<(), NoMemory>
        ensures { OnOk result (CountsRose self.old self.new (λ key. if is_tied_to key tie.now then 1 else 0)) }
    {
        match &tie.key {
            Some(key) => self.add(key.key()),
            None => Ok(()),
        }
    }

    fn add_ties(&mut self, ties: &[Tie]) -> Result<(), NoMemory>
        ensures { OnOk result (CountsRose self.old self.new (λ key. count_by (is_tied_to key) ties.now)) }
    {
        for tie in ties {
            self.add_tie(tie)?;
        }
        Ok(())
    }

    /// Counts the fields of a kept record.
    fn add_record(&mut self, key: &Key, kept: &StoredRecord) -> Result<(), NoMemory>
        ensures { OnOk result (CountsRose self.old self.new (λ other. linked_of_row other (key.now, kept_record kept.now))) }
    {
        match kept.ties() {
            Some(ties) => self.add_ties(ties),
            None => Ok(()),
        }
    }

    /// Counts the fields of records.
    pub(crate) fn add_records(&mut self, rows: &RowMap<'_>) -> Result<(), NoMemory>
        ensures { OnOk result (CountsRose self.old self.new (λ key. linked_of_rows key (map shown_row rows.now.entries))) }
    {
        for (key, kept) in rows {
            self.add_record(key, kept)?;
        }
        Ok(())
    }

    /// The count of a key.
    pub(crate) fn of(&self, key: &Key) -> u64
        ensures { result ≡ unwrap_or (count_of self.now key.now) 0 }
    {
        match self.counts.get(key) {
            Some(count) => *count,
            None => 0,
        }
    }
}
