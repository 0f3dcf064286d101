//! The reading of a journal's payloads with one of them in memory.
ghost use Rattle.std.specs.Prelude.{◌≡◌, ◌+◌, ◌^◌, ◌<◌, ◌≤◌, List, [], length, IfOk, OnOk, IfErr, OnErr};
ghost use Rattle.marc_types.specs.declared.entry.Entry.{Entry as AnyEntry};
ghost use Rattle.entry_history.specs.Readers.{IsVersion, HasExtent, CountsEntries, HoldsNone};

use crate::EntryFault;
use crate::extent::Extent;
use crate::reader::read;
use entry_record::Prepared;
use std::alloc::Global;
use std::marker::Model;

/// Takes the payloads of a journal of one version in their order, and keeps none of their entries. Contracts see the version, how
/// many entries there were, and the run of the last.
#[derive(Debug, Drop)]
pub struct HistoryCounter {
    extent: Extent,
    version: u8,
}

impl Model for HistoryCounter {
    ghost use Rattle.entry_history.specs.Readers.{Counted, IsVersion};

    ghost Value = { Counted };

    ghost view = { λ c. record { version = c.version; extent = c.extent } };

    ghost invariant = { λ c. IsVersion c.version };
}

impl HistoryCounter {
    /// No payload is taken yet. The version is that of the journal.
    pub fn new(version: u8) -> HistoryCounter
        requires { IsVersion version }
        ensures version { result.version ≡ version }
        ensures none { HasExtent [] result.extent }
        ensures count { result.extent.count ≡ 0 }
    {
        HistoryCounter {
            extent: Extent::none(),
            version,
        }
    }

    /// Takes a journal's next payload, and hands out its entries. `BadEntry` comes exactly where it isn't valid behind those that were
    /// taken. After a fault nothing is changed.
    pub fn read(&mut self, alloc: Global, payload: &[u8]) -> Result<Vec<Prepared>, EntryFault>
        requires room { self.old.extent.count + length payload.now < 2 ^ 64 }
        ensures read { IfOk result (λ items. (before : List AnyEntry) → HasExtent before self.old.extent
            → CountsEntries self.old before items.items payload.now self.new) }
        ensures version { self.new.version ≡ self.old.version }
        ensures few { OnOk result (self.new.extent.count ≤ self.old.extent.count + length payload.now) }
        ensures bad { IfErr result (λ fault. (before : List AnyEntry) → HasExtent before self.old.extent
            → HoldsNone self.old.version before payload.now fault) }
        ensures unchanged { OnErr result (self.new ≡ self.old) }
    {
        let items = read(alloc, self.version, self.extent, payload)?;
        self.extent = self.extent.with(items.as_slice());
        Ok(items)
    }

    /// How many entries the payloads had that were taken.
    pub fn count(&self) -> u64
        ensures { result ≡ self.now.extent.count }
    {
        self.extent.count
    }

    /// The run of the last entry of the payloads that were taken, or 0.
    pub fn last_run(&self) -> u64
        ensures { result ≡ self.now.extent.last_run }
    {
        self.extent.last_run
    }
}
