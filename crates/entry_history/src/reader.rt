//! The reading of a journal's payloads, one behind the other.
ghost use Rattle.std.specs.Prelude.{◌≡◌, ◌≤◌, [], List, length, IfOk, OnOk, IfErr, OnErr};
ghost use Rattle.marc_types.specs.declared.entry.Entry.{Entry as AnyEntry};
ghost use Rattle.entry_history.specs.Payloads.{Holds};
ghost use Rattle.entry_history.specs.Readers.{IsVersion, HasExtent, Takes, HoldsNone};

use crate::extent::Extent;
use crate::{EntryFault, old, payload};
use entry_record::Prepared;
use std::alloc::Global;
use std::marker::Model;

/// Takes the payloads of a journal of one version in their order, and keeps their entries. Contracts see the version and the
/// entries.
#[derive(Debug, Drop)]
pub struct HistoryReader {
    items: Vec<Prepared>,
    version: u8,
}

impl Model for HistoryReader {
    ghost use Rattle.entry_history.specs.Readers.{Taken, IsVersion};

    ghost Value = { Taken };

    ghost view = { λ r. record { version = r.version; entries = r.items.items } };

    ghost invariant = { λ r. IsVersion r.version };
}

/// The entries of a payload that follows so many.
#[tactic(auto, using(crate::proofs::Histories::newer, crate::proofs::Histories::none_newer, crate::proofs::Histories::older, crate::proofs::Histories::none_older))]
pub(crate) fn read(
    alloc: Global,
    version: u8,
    extent: Extent,
    bytes: &[u8],
) -> Result<Vec<Prepared>, EntryFault>
    requires { IsVersion version }
    ensures holds { IfOk result (λ items. (before : List AnyEntry) → HasExtent before extent → Holds version before items.items bytes.now) }
    ensures few { IfOk result (λ items. length items.items ≤ length bytes.now) }
    ensures bad { IfErr result (λ fault. (before : List AnyEntry) → HasExtent before extent → HoldsNone version before bytes.now fault) }
{
    if version == 1 {
        return old::read_payload(alloc, bytes);
    }
    payload::read_payload(alloc, extent, bytes)
}

impl HistoryReader {
    /// No payload is taken yet. The version is that of the journal.
    pub fn new(alloc: Global, version: u8) -> HistoryReader
        requires { IsVersion version }
        ensures { result ≡ record { version = version; entries = [] } }
    {
        HistoryReader {
            items: Vec::new(alloc),
            version,
        }
    }

    /// Takes a journal's next payload. `BadEntry` comes exactly where it isn't valid behind those that were taken. After a
    /// fault nothing is changed.
    pub fn take(&mut self, alloc: Global, payload: &[u8]) -> Result<(), EntryFault>
        ensures taken { OnOk result (Takes self.old payload.now self.new) }
        ensures bad { IfErr result (HoldsNone self.old.version self.old.entries payload.now) }
        ensures unchanged { OnErr result (self.new ≡ self.old) }
    {
        let extent = Extent::of(self.items.as_slice());
        let mut read = read(alloc, self.version, extent, payload)?;
        self.items.append(&mut read)?;
        Ok(())
    }

    /// The entries of all payloads that were taken.
    pub fn items(&self) -> &[Prepared]
        ensures { result.now ≡ self.now.entries }
    {
        self.items.as_slice()
    }

    /// The entries of all payloads that were taken; takes no memory.
    pub fn into_items(self) -> Vec<Prepared>
        ensures { result.items ≡ self.entries }
    {
        self.items
    }
}
