use marc_types::{Entries, Entry, NoMemory, TryCopy};
use std::alloc::Global;

/// An item of the history of a catalogue that is kept in a journal.
#[derive(Debug, Drop)]
pub enum Event {
    /// An entry was committed.
    Committed(Entry),
    /// A device failed in the commit of these entries. They are committed or not; the next opening finds out.
    Broke(Entries),
}

impl TryCopy for Event {
    fn copy(&self, alloc: Global) -> Result<Self, NoMemory> {
        match self {
            Event::Committed(entry) => Ok(Event::Committed(entry.copy(alloc)?)),
            Event::Broke(entries) => Ok(Event::Broke(entries.copy(alloc)?)),
        }
    }
}
