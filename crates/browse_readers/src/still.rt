//! A window on one table that nothing changes.
ghost use Rattle.std.specs.Prelude.{◌≡◌, IfOk, IsOk};
ghost use Rattle.std.specs.Fn.{FnOnceReturnsAt};
ghost use Rattle.heading_rows.specs.Listing.{table_of};

use crate::window::{Away, Window};
use heading_rows::{Heading, Table};
use marc_types::{Entries, NoMemory};
use std::alloc::Global;
use std::marker::Model;
use std::snapshot::Snapshot;

/// The table of a list of entries. It is never away. Contracts see it as the list.
#[derive(Drop)]
pub struct Still {
    entries: Snapshot<Entries>,
    table: Table,
}

impl Model for Still {
    ghost use Rattle.std.specs.Prelude.{◌≡◌, List};
    ghost use Rattle.marc_types.specs.declared.entry.Entry.{Entry};
    ghost use Rattle.heading_rows.specs.Listing.{table_of};

    ghost Value = { List Entry };

    ghost view = { λ s. s.entries.value };

    ghost invariant = { λ s. s.table ≡ table_of s.entries.value };
}

#[tactic(auto, unfolding(heading_rows::specs::Listing::table_of))]
fn table_of(alloc: Global, entries: &Entries) -> Result<Table, NoMemory>
    ensures { IfOk result (λ table. table ≡ table_of entries.now) }
{
    let mut table = Table::new(alloc);
    for entry in entries.as_slice() {
        let heading = Heading::of_entry(alloc, entry)?;
        table.put(alloc, &heading)?;
    }
    Ok(table)
}

impl Still {
    /// A window on the table of these entries, which never changes.
    pub fn new(alloc: Global, entries: &Entries) -> Result<Still, NoMemory>
        ensures { IfOk result (λ still. still ≡ entries.now) }
    {
        Ok(Still {
            entries: Snapshot::of(entries),
            table: table_of(alloc, entries)?,
        })
    }
}

impl Window for Still {
    ghost known = { λ s. s };

    ghost refused = { λ s. 0 };

    fn with<T, F: FnOnce(&Table) -> T>(&mut self, read: F) -> Result<T, Away> {
        Ok(read(&self.table))
    }
}
