//! The numbers of the records that a catalogue keeps.
ghost use Rattle.std.specs.Prelude.{◌≡◌, [], fold, IfOk, OnOk, OnErr};
ghost use Rattle.std.specs.BTreeMap.{insert_entry};
ghost use Rattle.std.specs.BTreeSet.{insert_key};
ghost use Rattle.std.specs.Map.{remove_entry};
ghost use Rattle.marc_types.specs.Order.{key_cmp, same_key};
ghost use Rattle.entry_record.specs.Identity.{is_deletion};
ghost use Rattle.catalogue_rules.specs.Settle.{arrival_of};
ghost use Rattle.match_report.specs.Numbers.{numbers_of};
ghost use Rattle.match_report.specs.Postings.{posting_cmp};
ghost use Rattle.match_report.specs.Groups.{postings_of, postings_of_row, matches_of};
ghost use Rattle.match_report.specs.Matches.{take_numbers};

use crate::fields::numbers;
use crate::groups::{Groups, groups_among};
use crate::number::Numbers;
use crate::posting::PostingRef;
use entry_record::is_deletion;
use marc_types::{Class, Entry, Key, NoMemory, Record};
use packed_keys::PackedKey;
use std::alloc::Global;
use std::collections::{BTreeMap, BTreeSet};
use std::marker::Model;

/// The numbers of each bibliographic record that is kept, under its key. Contracts see them in key order.
#[derive(Drop)]
pub struct Matches {
    rows: BTreeMap<PackedKey, Numbers>,
}

impl Model for Matches {
    ghost use Rattle.std.specs.Prelude.{List};
    ghost use Rattle.match_report.specs.Groups.{RecordNumbers};

    ghost Value = { List RecordNumbers };

    ghost view = { λ m. m.rows.entries };
}

/// The numbers of a record, each beside the record's key.
fn add_postings<'a>(
    key: &'a PackedKey,
    numbers: &'a Numbers,
    held: &mut BTreeSet<PostingRef<'a>>,
) -> Result<(), NoMemory>
    ensures { OnOk result (held.new.keys ≡ fold (insert_key posting_cmp) held.old.keys (postings_of_row (key.now, numbers.now))) }
{
    for number in numbers.as_slice() {
        held.insert(PostingRef { number, key })?;
    }
    Ok(())
}

impl Matches {
    /// No record is kept.
    pub fn new(alloc: Global) -> Matches
        ensures { result ≡ [] }
    {
        Matches {
            rows: BTreeMap::new(alloc),
        }
    }

    fn put_record(&mut self, alloc: Global, key: &Key, rec: &Record) -> Result<(), NoMemory>
        ensures ok { OnOk result (self.new ≡ insert_entry key_cmp self.old key.now (numbers_of rec.now.fields)) }
        ensures err { OnErr result (self.new ≡ self.old) }
    {
        let found = numbers(alloc, rec)?;
        let own = PackedKey::of(alloc, key)?;
        self.rows.insert(own, found)?;
        Ok(())
    }

    fn take_record(&mut self, alloc: Global, key: &Key) -> Result<(), NoMemory>
        ensures ok { OnOk result (self.new ≡ remove_entry (same_key key.now) self.old) }
        ensures err { OnErr result (self.new ≡ self.old) }
    {
        let own = PackedKey::of(alloc, key)?;
        self.rows.remove(&own);
        Ok(())
    }

    /// Takes what an entry brings: a record comes into its key's place with its numbers, and a deletion takes away what stands
    /// there. Authorities have no numbers. Want of memory changes nothing.
    pub fn put(&mut self, alloc: Global, entry: &Entry) -> Result<(), NoMemory>
        ensures ok { OnOk result (self.new ≡ take_numbers self.old (arrival_of entry.now)) }
        ensures err { OnErr result (self.new ≡ self.old) }
    {
        match entry.class {
            Class::Authority => Ok(()),
            Class::Bibliographic => {
                if is_deletion(&entry.rec.leader) {
                    return self.take_record(alloc, &entry.key);
                }
                self.put_record(alloc, &entry.key, &entry.rec)
            }
        }
    }

    #[tactic(auto, using(crate::proofs::Folds::next_row))]
    fn postings(&self, alloc: Global) -> Result<BTreeSet<PostingRef<'_>>, NoMemory>
        ensures { IfOk result (λ held. held.keys ≡ postings_of self.now) }
    {
        let mut held = BTreeSet::new(alloc);
        for (key, found) in self.rows.iter() {
            add_postings(key, found, &mut held)?;
        }
        Ok(held)
    }

    /// The groups of records that share a number.
    #[tactic(auto, unfolding(crate::specs::Groups::matches_of))]
    pub fn groups(&self, alloc: Global) -> Result<Groups<'_>, NoMemory>
        ensures { IfOk result (λ groups. groups ≡ matches_of self.now) }
    {
        let held = self.postings(alloc)?;
        groups_among(alloc, held)
    }
}
