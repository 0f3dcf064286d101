//! An entry of which its payload alone is kept.
ghost use Rattle.std.specs.Prelude.{◌≡◌, ◌≤◌, ◌↔◌, [], ◌∷◌, length, IsTrue, IfOk};
ghost use Rattle.marc_types.specs.declared.entry.Entry.{Entry as AnyEntry};
ghost use Rattle.entry_history.specs.Alone.{IsPayload, HoldsOne, copies};
ghost use Rattle.entry_history.specs.Format.{payload_of};
ghost use Rattle.entry_history.specs.Payloads.{IsEntry};
ghost use Rattle.entry_history.specs.Readers.{HasExtent};

use crate::EntryFault;
use crate::extent::Extent;
use crate::laws::can_stand_in_a_payload;
use crate::payload::read_payload;
use crate::written::payload;
use commit_journal::long_number;
use entry_record::Prepared;
use marc_types::{Entry, NoMemory};
use outside::Bytes;
use std::alloc::Global;
use std::marker::Model;
use std::snapshot::Snapshot;

/// An entry as the payload of a journal's frame that holds it alone, in memory of exactly its length. Contracts see it as the entry.
#[derive(Drop)]
pub struct EntryPayload {
    entry: Snapshot<Entry>,
    payload: Bytes,
}

impl Model for EntryPayload {
    ghost use Rattle.marc_types.specs.declared.entry.Entry.{Entry};
    ghost use Rattle.entry_history.specs.Alone.{IsPayload};

    ghost Value = { Entry };

    ghost view = { λ p. p.entry.value };

    ghost invariant = { λ p. IsPayload p.entry.value p.payload };
}

fn are_equal(one: &[u8], other: &[u8]) -> bool
    ensures { IsTrue result ↔ (one.now ≡ other.now) }
{
    one == other
}

/// How far a history goes that the entry of a payload can follow: that of as many entries of its run as the run needs before it.
fn extent_before(payload: &[u8]) -> Extent
    ensures { (e : AnyEntry) → IsPayload e payload.now → HasExtent (copies e.run e) result }
{
    let run = match long_number(payload) {
        Some((run, _behind)) => run,
        None => 0,
    };
    Extent {
        count: run,
        last_run: run,
    }
}

fn only(items: Vec<Prepared>) -> Prepared
    requires { length items.items ≡ 1 }
    ensures { result ∷ [] ≡ items.items }
{
    let mut items = items;
    match items.pop() {
        Some(item) => item,
        None => unreachable!(),
    }
}

/// The entry of a payload that holds it alone.
fn read_alone(alloc: Global, payload: &[u8]) -> Result<Prepared, NoMemory>
    requires { HoldsOne payload.now }
    ensures { IfOk result (λ item. IsPayload item payload.now) }
{
    match read_payload(alloc, extent_before(payload), payload) {
        Ok(items) => Ok(only(items)),
        Err(EntryFault::NoMemory) => Err(NoMemory),
        Err(EntryFault::BadEntry) => unreachable!(),
    }
}

impl EntryPayload {
    /// That of a prepared entry.
    pub fn of(alloc: Global, item: &Prepared) -> Result<Self, NoMemory>
        ensures { IfOk result (λ made. made ≡ item.now) }
    {
        can_stand_in_a_payload(item.entry());
        let payload = payload(alloc, item)?;
        Ok(EntryPayload {
            entry: Snapshot::of(item.entry()),
            payload: Bytes::from_vec(payload),
        })
    }

    /// The payload, of 1 to 100,041 bytes. The entry can stand in one.
    pub fn payload(&self) -> &[u8]
        ensures value { result.now ≡ payload_of self.now }
        ensures some { 1 ≤ length result.now }
        ensures most { length result.now ≤ 100041 }
        ensures entry { IsEntry self.now }
    {
        self.payload.as_slice()
    }

    /// Gives the payload up; takes no memory.
    pub fn into_payload(self) -> Bytes
        ensures { IsPayload self result }
    {
        let kept = self;
        kept.payload
    }

    /// The entry, prepared again from its payload.
    pub fn prepare(&self, alloc: Global) -> Result<Prepared, NoMemory>
        ensures { IfOk result (λ item. item ≡ self.now) }
    {
        read_alone(alloc, self.payload())
    }

    /// Whether it is that of this item's entry.
    pub fn is_of(&self, alloc: Global, item: &Prepared) -> Result<bool, NoMemory>
        ensures { IfOk result (λ told. IsTrue told ↔ (self.now ≡ item.now)) }
    {
        can_stand_in_a_payload(item.entry());
        let other = payload(alloc, item)?;
        Ok(are_equal(self.payload(), other.as_slice()))
    }
}
