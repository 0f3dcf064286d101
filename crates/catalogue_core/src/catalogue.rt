//! A catalogue: its history, the entries that are staged behind it, and the state behind both.
ghost use Rattle.std.specs.Prelude.{◌≡◌, ◌+◌, ◌^◌, ◌<◌, ◌≤◌, [], false, length, map, All, IfOk, OnOk, IfErr, OnErr};
ghost use Rattle.std.specs.Option.{option_map};
ghost use Rattle.catalogue_rules.specs.State.{rows_of};
ghost use Rattle.entry_record.specs.History.{IsAdmitted, entries_size};
ghost use Rattle.catalogue_rules.specs.Settle.{arrival_of, state_of};
ghost use Rattle.catalogue_rules.specs.Receipt.{kept_under, receipt};
ghost use Rattle.linking_laws.specs.Visits.{touched};
ghost use Rattle.catalogue_core.specs.Catalogues.{receipt_with, all_entries, empty_catalogue, is_full, IsDue, with_staged, with_kept, without_staged, with_entry};
ghost use Rattle.numbered_store.specs.Kept.{kept_record};

use crate::engine::Engine;
use crate::limits::passes_limits;
use catalogue_rules::Steps;
use commit_stages::CommitCounts;
use entry_record::Prepared;
use marc_types::{Class, Entry, Key, Limits, NoMemory, Receipt};
use numbered_store::StoredRecord;
use std::alloc::Global;
use std::marker::Model;
use std::snapshot::Snapshot;
use std::sync::ledger::Ledger;

/// Why an entry isn't taken: the catalogue is full, or there is no memory.
#[derive(Clone, Copy, Debug, PartialEq, Eq)]
pub enum CoreFault {
    Full,
    NoMemory,
}

/// Committed entries, and the entries that are staged behind them until they are kept or undone. Contracts see these two lists
/// and the limits; what a catalogue answers is over the state behind both lists.
#[derive(Drop)]
pub struct Catalogue {
    engine: Engine,
    // for contracts alone: at run time they are a number, and take no memory
    entries: Vec<Snapshot<Entry>>,
    bytes: u64,
    limits: Limits,
    // how many of the entries are history, and what these count in bytes
    kept: usize,
    kept_bytes: u64,
}

// The receipt of an entry with so many before it.
fn receipt_at(at: u64, changes: CommitCounts) -> Receipt
    ensures { result ≡ receipt_with at changes }
{
    let CommitCounts {
        linked,
        ambiguous,
        unlinked,
        changed_records,
    } = changes;
    Receipt {
        at,
        linked,
        ambiguous,
        unlinked,
        changed_records,
    }
}

impl Model for Catalogue {
    ghost use Rattle.catalogue_core.specs.Catalogues.{Catalogued, IsCatalogue, catalogued, entries_seen};

    ghost Value = { Catalogued };

    ghost view = { λ c. catalogued c.kept (entries_seen c.entries.items) c.limits };

    ghost invariant = { λ c. IsCatalogue c.engine c.kept c.kept_bytes (entries_seen c.entries.items) c.bytes c.limits };
}

impl Catalogue {
    /// No entry yet.
    pub fn empty(alloc: Global, limits: Limits) -> Catalogue
        ensures { result ≡ empty_catalogue limits }
    {
        Catalogue {
            engine: Engine::empty(alloc),
            entries: Vec::new(alloc),
            bytes: 0,
            limits,
            kept: 0,
            kept_bytes: 0,
        }
    }

    /// The state behind all entries, the staged ones too.
    pub fn engine(&self) -> &Engine
        ensures { result.now.state ≡ state_of (all_entries self.now) }
    {
        &self.engine
    }

    fn is_full(&self, item: &Prepared) -> bool
        ensures { result ≡ is_full self.now item.now }
    {
        passes_limits(&self.limits, self.entries.len() as u64, self.bytes, item)
    }

    /// Puts an entry behind those that are staged, where the limits aren't passed with it. Its receipt is that behind the history and
    /// the staged entries. Want of memory changes nothing, and the entry is gone then.
    pub fn stage<L: Ledger>(
        &mut self,
        alloc: Global,
        item: Prepared,
        steps: &mut Steps<L>,
    ) -> Result<Receipt, NoMemory>
        requires room { is_full self.old item ≡ false }
        ensures receipt { IfOk result (λ r. r ≡ receipt (map arrival_of (all_entries self.old)) (arrival_of item)) }
        ensures staged { OnOk result (self.new ≡ with_staged self.old item) }
        ensures err { OnErr result (self.new ≡ self.old) }
        ensures visits { steps.new ≤ steps.old + touched (state_of (all_entries self.old)) item }
    {
        let at = self.entries.len() as u64;
        let size = item.size();
        let entry = Snapshot::of(item.entry());
        // room first: once the state has gone on, nothing can fail
        self.entries.reserve(1)?;
        let changes = self.engine.step(alloc, item, steps)?;
        self.entries.push_reserved(entry);
        self.bytes += size;
        Ok(receipt_at(at, changes))
    }

    /// The staged entries become history. It takes no memory.
    pub fn keep(&mut self)
        ensures { self.new ≡ with_kept self.old }
    {
        self.engine.keep();
        self.kept = self.entries.len();
        self.kept_bytes = self.bytes;
    }

    /// The staged entries are dropped: the catalogue is what it was before the first of them. It takes no memory.
    pub fn undo(&mut self)
        ensures { self.new ≡ without_staged self.old }
    {
        self.engine.undo();
        self.entries.truncate(self.kept);
        self.bytes = self.kept_bytes;
    }

    /// Puts an entry behind the history. Full comes before all else, where with this entry the limits would be passed. After
    /// either fault nothing is changed, and the entry is gone.
    #[tactic(auto, using(crate::proofs::Entries::nothing_staged))]
    pub fn commit<L: Ledger>(
        &mut self,
        alloc: Global,
        item: Prepared,
        steps: &mut Steps<L>,
    ) -> Result<Receipt, CoreFault>
        requires { self.old.staged ≡ [] }
        ensures receipt { IfOk result (λ r. r ≡ receipt (map arrival_of self.old.history) (arrival_of item)) }
        ensures history { OnOk result (self.new ≡ with_entry self.old item) }
        ensures room { OnOk result (is_full self.old item ≡ false) }
        ensures fault { IfErr result (IsDue (is_full self.old item)) }
        ensures err { OnErr result (self.new ≡ self.old) }
        ensures visits { steps.new ≤ steps.old + touched (state_of self.old.history) item }
    {
        if self.is_full(&item) {
            return Err(CoreFault::Full);
        }
        match self.stage(alloc, item, steps) {
            Ok(receipt) => {
                self.keep();
                Ok(receipt)
            }
            Err(NoMemory) => Err(CoreFault::NoMemory),
        }
    }

    /// How many entries there are, with the staged ones.
    pub fn history_len(&self) -> u64
        ensures value { result ≡ length (all_entries self.now) }
        ensures few { result < 2 ^ 63 }
    {
        self.entries.len() as u64
    }

    /// What all entries count against the limit in bytes.
    pub fn bytes(&self) -> u64
        ensures { result ≡ entries_size (all_entries self.now) }
    {
        self.bytes
    }

    /// Each entry was admitted.
    pub fn each_was_admitted(&self)
        ensures { All IsAdmitted (all_entries self.now) }
    {
        let _entries = &self.entries;
    }

    /// How much it takes at most.
    pub fn limits(&self) -> &Limits
        ensures { result.now ≡ self.now.limits }
    {
        &self.limits
    }

    /// All entries together are within the limits.
    pub fn is_within_limits(&self)
        ensures count { length (all_entries self.now) ≤ self.now.limits.entries }
        ensures size { entries_size (all_entries self.now) ≤ self.now.limits.bytes }
    {
        let _entries = &self.entries;
    }

    /// How many records of the class there are.
    pub fn count(&self, class: Class) -> u64
        ensures { result ≡ length (rows_of class (state_of (all_entries self.now))) }
    {
        self.engine().count(class)
    }

    /// The record under a key.
    pub fn look(&self, class: Class, key: &Key) -> Option<&StoredRecord>
        ensures { option_map (λ kept. kept_record kept.now) result ≡ kept_under class key.now (state_of (all_entries self.now)) }
    {
        self.engine().look(class, key)
    }
}
