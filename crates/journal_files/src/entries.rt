//! The history that is brought into a journal.
ghost use Rattle.std.specs.Prelude.{◌≡◌, []};

use durable_catalogue::EntryTaker;
use entry_history::EntryPayload;
use entry_record::Prepared;
use marc_types::NoMemory;
use std::alloc::Global;
use std::marker::Model;

/// The entries of a history, each as its payload, taken one behind the other. Contracts see it as the entries.
#[derive(Drop)]
pub struct HistoryEntries {
    entries: Vec<EntryPayload>,
}

impl Model for HistoryEntries {
    ghost use Rattle.std.specs.Prelude.{List};
    ghost use Rattle.marc_types.specs.declared.entry.Entry.{Entry};

    ghost Value = { List Entry };

    ghost view = { λ h. h.entries.items };
}

impl HistoryEntries {
    /// No entry yet.
    pub fn new(alloc: Global) -> HistoryEntries
        ensures { result ≡ [] }
    {
        HistoryEntries {
            entries: Vec::new(alloc),
        }
    }

    /// The entries in their order.
    pub fn as_slice(&self) -> &[EntryPayload]
        ensures { result.now ≡ self.now }
    {
        self.entries.as_slice()
    }

    /// Gives the entries up; takes no memory.
    pub fn into_vec(self) -> Vec<EntryPayload>
        ensures { result.items ≡ self }
    {
        self.entries
    }
}

impl EntryTaker for HistoryEntries {
    ghost use Rattle.std.specs.Prelude.{◌≡◌};

    ghost has = { λ begun taken entries. taken ≡ entries };

    fn take(&mut self, alloc: Global, item: Prepared) -> Result<(), NoMemory> {
        let entry = EntryPayload::of(alloc, &item)?;
        self.entries.push(entry)?;
        Ok(())
    }
}
