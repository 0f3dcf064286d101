//! Batches: entries that are committed together.
ghost use Rattle.std.specs.Prelude.{◌≡◌, ◌≢◌, ◌↔◌, ◌<◌, ◌≤◌, ◌^◌, ◌+◌, [], ◌∷◌, ◌++◌, List, Some, length, take, drop, slice_get, sum, map, All, IsTrue, IfOk, IfErr, OnOk, OnErr};
ghost use Rattle.std.specs.Option.{option_copied};
ghost use Rattle.std.specs.List.{flat_map};
ghost use Rattle.entry_record.specs.History.{IsAdmitted, with_run};
ghost use Rattle.entry_history.specs.Format.{entry_bytes};
ghost use Rattle.marc_types.specs.declared.entry.Entry.{Entry};
ghost use Rattle.entry_history.specs.Payloads.{IsEntry, CanFollow, HoldsNow};
ghost use Rattle.entry_history.specs.Batches.{IsLike, IsBatch, batch_payload};

use crate::laws::each_can_stand_in_a_payload;
use crate::part::count_place;
use crate::written::{append_entry, payload, write_run};
use entry_record::Prepared;
use marc_types::{NoMemory, TryCopy};
use outside::{Bytes, LARGEST_BATCH};
use std::alloc::Global;
use std::marker::Model;

/// Entries that are committed together: up to 32, of one run, one loader and one library, with their payload laid out. Contracts
/// see a batch as the list of its entries.
#[derive(Debug, Drop)]
pub struct Batch {
    items: Vec<Prepared>,
    payload: Vec<u8>,
}

impl Model for Batch {
    ghost use Rattle.std.specs.Prelude.{List};
    ghost use Rattle.marc_types.specs.declared.entry.Entry.{Entry};

    ghost Value = { List Entry };

    ghost use Rattle.marc_types.specs.declared.entry.Entry.{Entry};
    ghost use Rattle.entry_history.specs.Payloads.{IsEntry, CanFollow, HoldsNow};
    ghost use Rattle.entry_history.specs.Batches.{IsLaidOut};

    ghost view = { λ b. b.items.items };

    ghost invariant = { λ b. IsLaidOut b.items.items b.payload.items };
}

#[tactic(auto, using(crate::proofs::Format::length_entry))]
fn part_len(item: &Prepared) -> usize
    ensures value { result ≡ length (entry_bytes item.now) }
    ensures small { result ≤ 100011 }
{
    item.size() as usize
}

/// How many bytes some entries take in a payload.
fn parts_len(items: &[Prepared]) -> usize
    requires { length items.now ≤ 32 }
    ensures value { result ≡ length (flat_map entry_bytes items.now) }
    ensures small { result ≤ 3200352 }
{
    let mut len = 0;
    for item in items {
        len += part_len(item);
    }
    len
}

/// Puts each entry into a run.
fn set_runs(items: &mut [Prepared], run: u64)
    ensures { items.new ≡ with_run run items.old }
{
    for item in items.iter_mut() {
        item.set_run(run);
    }
}

fn is_admitted(item: &Prepared)
    ensures { IsAdmitted item.now }
{
    let _entry = item.entry();
}

fn copies(alloc: Global, items: &[Prepared]) -> Result<Vec<Prepared>, NoMemory>
    ensures { IfOk result (λ twins. twins.items ≡ items.now) }
{
    let mut twins = Vec::with_capacity(alloc, items.len())?;
    for item in items {
        twins.push(item.copy(alloc)?)?;
    }
    Ok(twins)
}

impl Batch {
    /// No entry yet.
    pub fn new(alloc: Global) -> Batch
        ensures { result ≡ [] }
    {
        Batch {
            items: Vec::new(alloc),
            payload: Vec::new(alloc),
        }
    }

    /// The first entry, and its payload.
    fn begin(&mut self, alloc: Global, item: Prepared) -> Result<(), (Prepared, NoMemory)>
        requires { self.old ≡ [] }
        ensures pushed { OnOk result (self.new ≡ item ∷ []) }
        ensures unchanged { OnErr result (self.new ≡ self.old) }
        ensures back { IfErr result (λ e. e.0 ≡ item) }
    {
        is_admitted(&item);
        let Ok(payload) = payload(alloc, &item) else {
            return Err((item, NoMemory));
        };
        if let Err(failed) = self.items.push(item) {
            return Err((failed.value, NoMemory));
        }
        self.payload = payload;
        Ok(())
    }

    /// One more entry, and its part of the payload.
    fn go_on(&mut self, alloc: Global, item: Prepared) -> Result<(), (Prepared, NoMemory)>
        requires some { self.old ≢ [] }
        requires room { length self.old < 32 }
        requires like { All (λ e. IsLike e item) self.old }
        ensures pushed { OnOk result (self.new ≡ self.old ++ item ∷ []) }
        ensures unchanged { OnErr result (self.new ≡ self.old) }
        ensures back { IfErr result (λ e. e.0 ≡ item) }
    {
        let before = self.payload.len();
        let place = count_place(&item);
        let Ok(()) = append_entry(alloc, &mut self.payload, &item) else {
            return Err((item, NoMemory));
        };
        if let Err(failed) = self.items.push(item) {
            self.payload.truncate(before);
            return Err((failed.value, NoMemory));
        }
        self.payload[place] = self.items.len() as u8;
        Ok(())
    }

    /// Puts an entry behind those that are there, and writes it into the payload. At want of memory it comes back, and the batch is
    /// as it was.
    pub fn push(&mut self, alloc: Global, item: Prepared) -> Result<(), (Prepared, NoMemory)>
        requires room { length self.old < 32 }
        requires like { All (λ e. IsLike e item) self.old }
        ensures pushed { OnOk result (self.new ≡ self.old ++ item ∷ []) }
        ensures unchanged { OnErr result (self.new ≡ self.old) }
        ensures back { IfErr result (λ e. e.0 ≡ item) }
    {
        if self.items.is_empty() {
            self.begin(alloc, item)
        } else {
            self.go_on(alloc, item)
        }
    }

    /// How many entries there are.
    pub fn len(&self) -> u32
        ensures value { result ≡ length self.now }
        ensures few { result ≤ LARGEST_BATCH }
    {
        self.items.len() as u32
    }

    /// Whether it has no entry.
    pub fn is_empty(&self) -> bool
        ensures { IsTrue result ↔ (self.now ≡ []) }
    {
        self.items.is_empty()
    }

    /// The entry with so many before it.
    pub fn item(&self, index: u32) -> Option<&Prepared>
        ensures { option_copied result ≡ slice_get self.now index }
    {
        self.items.get(index as usize)
    }

    /// The entries in their order.
    pub fn items(&self) -> &[Prepared]
        ensures value { result.now ≡ self.now }
        ensures batch { IsBatch self.now }
    {
        self.items.as_slice()
    }

    /// The payload of a journal's frame that holds the entries; empty where there is none.
    pub fn payload(&self) -> &[u8]
        ensures value { result.now ≡ batch_payload self.now }
        ensures some { self.now ≢ [] → 1 ≤ length result.now }
        ensures most { length result.now ≤ 3200382 }
    {
        self.payload.as_slice()
    }

    /// Behind each history that their run can follow, the payload of the entries is valid, and holds them. This is a law for
    /// proofs; the call only looks at the entries' records.
    #[tactic(auto, using(crate::proofs::Batches::held_by_payload))]
    pub fn is_held_by_its_payload(&self)
        ensures { (before : List Entry) (e : Entry) → slice_get self.now 0 ≡ Some e → CanFollow before e.run
            → HoldsNow before self.now (batch_payload self.now) }
    {
        each_can_stand_in_a_payload(self.items.as_slice());
    }

    /// Keeps the first `n` entries and their payload; takes no memory.
    pub fn cut(&mut self, n: u32)
        requires some { 1 ≤ n }
        requires within { n ≤ length self.old }
        ensures { self.new ≡ take n self.old }
    {
        let kept = n as usize;
        let place = count_place(&self.items[0]);
        let len = parts_len(&self.items[..kept]);
        self.items.truncate(kept);
        self.payload.truncate(place + 1 + len);
        self.payload[place] = n as u8;
    }

    /// Puts all entries into a run, and their payload too; takes no memory.
    pub fn set_run(&mut self, run: u64)
        ensures { self.new ≡ with_run run self.old }
    {
        if self.items.is_empty() {
            return;
        }
        set_runs(self.items.as_mut_slice(), run);
        write_run(&mut self.payload, run);
    }

    /// The entries, and their payload; takes no memory.
    pub fn into_parts(self) -> (Vec<Prepared>, Bytes)
        ensures items { result.0.items ≡ self }
        ensures batch { IsBatch self }
        ensures payload { result.1 ≡ batch_payload self }
        ensures some { self ≢ [] → 1 ≤ length result.1 }
        ensures most { length result.1 ≤ 3200382 }
    {
        let Batch { items, payload } = self;
        (items, Bytes::from_vec(payload))
    }
}

impl TryCopy for Batch {
    fn copy(&self, alloc: Global) -> Result<Self, NoMemory> {
        Ok(Batch {
            items: copies(alloc, self.items.as_slice())?,
            payload: Vec::from_slice(alloc, self.payload.as_slice())?,
        })
    }
}
