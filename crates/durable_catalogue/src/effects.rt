//! What the entries of each loader did to the records under their keys, in numbers that no clause speaks of.
use catalogue_core::Catalogue;
use entry_record::{Prepared, is_deletion};

/// The most loaders whose entries are counted.
const MOST_LOADERS: usize = 64;

/// How many entries did what to the record under their key.
#[derive(Clone, Copy, Debug, PartialEq, Eq)]
pub struct Effects {
    /// Records of keys that had none.
    pub new: u64,
    /// Records that took a record's place.
    pub replaced: u64,
    /// Deletions of a record.
    pub deleted: u64,
    /// Deletions of keys that had no record.
    pub missed: u64,
}

impl Effects {
    /// Of no entry.
    pub fn none() -> Effects {
        Effects {
            new: 0,
            replaced: 0,
            deleted: 0,
            missed: 0,
        }
    }

    // With one more entry, whose key had a record or had none, and which deletes or doesn't.
    fn with(self, had_record: bool, deletes: bool) -> Effects {
        match (had_record, deletes) {
            (false, false) => Effects {
                new: self.new.saturating_add(1),
                ..self
            },
            (true, false) => Effects {
                replaced: self.replaced.saturating_add(1),
                ..self
            },
            (true, true) => Effects {
                deleted: self.deleted.saturating_add(1),
                ..self
            },
            (false, true) => Effects {
                missed: self.missed.saturating_add(1),
                ..self
            },
        }
    }

    // Together with others.
    fn and(self, more: Effects) -> Effects {
        Effects {
            new: self.new.saturating_add(more.new),
            replaced: self.replaced.saturating_add(more.replaced),
            deleted: self.deleted.saturating_add(more.deleted),
            missed: self.missed.saturating_add(more.missed),
        }
    }
}

/// What the committed entries of each loader did, and those of the frame that is staged. It takes no memory.
#[derive(Drop)]
pub struct LoaderEffects {
    committed: [Effects; MOST_LOADERS],
    staged: Effects,
    // whose frame is staged
    loader: u32,
}

impl LoaderEffects {
    /// Of no entry.
    pub fn none() -> LoaderEffects {
        LoaderEffects {
            committed: [Effects::none(); MOST_LOADERS],
            staged: Effects::none(),
            loader: 0,
        }
    }

    /// A frame begins: what was staged before and not committed is forgotten.
    pub fn begin_frame(&mut self) {
        self.staged = Effects::none();
    }

    /// An entry is to be staged behind the catalogue.
    pub fn note(&mut self, core: &Catalogue, item: &Prepared) {
        let entry = item.entry();
        let had_record = core.look(entry.class, &entry.key).is_some();
        self.loader = entry.loader;
        self.staged = self.staged.with(had_record, is_deletion(&entry.rec.leader));
    }

    /// The frame is committed.
    pub fn end_frame(&mut self) {
        if let Some(committed) = self.committed.get_mut(self.loader as usize) {
            *committed = committed.and(self.staged);
        }
        self.staged = Effects::none();
    }

    /// What the committed entries of a loader did.
    pub fn of(&self, loader: u32) -> Effects {
        match self.committed.get(loader as usize) {
            Some(committed) => *committed,
            None => Effects::none(),
        }
    }
}
