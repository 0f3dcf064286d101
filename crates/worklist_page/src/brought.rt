//! How many entries each brought.
ghost use Rattle.std.specs.Prelude.{◌≡◌, [], OnOk};
ghost use Rattle.worklist_page.specs.Brought.{brought_by, with_entry};

use crate::bringer::Bringer;
use marc_types::{Entry, NoMemory, TryCopy};
use std::alloc::Global;
use std::collections::BTreeMap;
use std::marker::Model;

/// How many entries each loader of each run brought for each library. Contracts see them in that order.
#[derive(Drop)]
pub struct Brought {
    rows: BTreeMap<Bringer, u64>,
}

impl Model for Brought {
    ghost use Rattle.std.specs.Prelude.{List, ℕ};
    ghost use Rattle.worklist_page.specs.declared.bringer.Bringer.{Bringer};

    ghost Value = { List (Bringer × ℕ) };

    ghost view = { λ b. b.rows.entries };
}

impl Brought {
    /// No entry is counted.
    #[tactic(auto, unfolding(crate::specs::Brought::brought_by))]
    pub fn new(alloc: Global) -> Brought
        ensures { result ≡ brought_by [] }
    {
        Brought {
            rows: BTreeMap::new(alloc),
        }
    }

    /// One more entry is counted.
    pub fn count(&mut self, alloc: Global, entry: &Entry) -> Result<(), NoMemory>
        ensures { OnOk result (self.new ≡ with_entry self.old entry.now) }
    {
        let bringer = Bringer {
            run: entry.run,
            loader: entry.loader,
            library: entry.library.copy(alloc)?,
        };
        let so_far = self.rows.get(&bringer).copied().unwrap_or(0);
        // so many entries are in no memory
        if so_far == u64::MAX {
            return Err(NoMemory);
        }
        self.rows.insert(bringer, so_far + 1)?;
        Ok(())
    }

    /// Each with its count, in order.
    pub fn rows(&self) -> &BTreeMap<Bringer, u64>
        ensures { result.now.entries ≡ self.now }
    {
        &self.rows
    }
}
