//! The records of a workload as entries that a catalogue takes.
ghost use Rattle.std.specs.Prelude.{◌≡◌, ◌≤◌, IfOk, OnErr, length};
ghost use Rattle.marc_types.specs.Limits.{most_made};
ghost use Rattle.plain_commands.specs.Entries.{workload_entries, GivesNextEntry};

use entry_record::{Prepared, admit};
use marc_types::{NoMemory, RecordFault, Text};
use std::alloc::Global;
use std::marker::Model;
use workload::Maker;

/// The library code that a workload's entries are brought under.
const LIBRARY: &str = "UCAT";

/// The entries of a workload's records, one after the other. Contracts see it as the list of those still to come.
#[derive(Drop)]
pub struct Entries {
    maker: Maker,
    library: Text,
    ordinal: u64,
}

impl Model for Entries {
    ghost use Rattle.std.specs.Prelude.{◌≡◌, ◌≤◌, ◌+◌, List, length};
    ghost use Rattle.marc_types.specs.declared.entry.Entry.{Entry};
    ghost use Rattle.marc_types.specs.Limits.{most_made};
    ghost use Rattle.plain_commands.specs.Entries.{workload_library, entries_from, AreTaken};

    ghost Value = { List Entry };

    ghost view = { λ e. entries_from e.ordinal e.maker };

    ghost invariant = { λ e. (e.library ≡ workload_library) × AreTaken e.maker × (1 ≤ e.ordinal) × (e.ordinal + length e.maker ≤ 1048577) };
}

impl Entries {
    /// The entries of all records of a workload of at most 1,048,576, the first as piece 1.
    #[tactic(auto, using(crate::proofs::Given::all_taken, crate::proofs::Given::all_entries, crate::proofs::Given::all_counted))]
    pub fn new(alloc: Global, seed: u64, count: u64) -> Result<Entries, NoMemory>
        requires { count ≤ most_made }
        ensures all { IfOk result (λ entries. entries ≡ workload_entries seed count) }
        ensures many { IfOk result (λ entries. length entries ≡ count) }
    {
        Ok(Entries {
            maker: Maker::new(seed, count),
            library: Text::from_str(alloc, LIBRARY)?,
            ordinal: 1,
        })
    }

    /// The next entry, or none behind the last one. Want of memory changes nothing.
    #[tactic(auto, using(crate::proofs::Given::library_proper, crate::proofs::Given::entry_given))]
    pub fn next(&mut self, alloc: Global) -> Result<Option<Prepared>, NoMemory>
        ensures given { IfOk result (λ next. GivesNextEntry self.old self.new next) }
        ensures err { OnErr result (self.new ≡ self.old) }
    {
        // the maker moves on only once the entry is made
        let mut maker = self.maker.clone()?;
        let Some(rec) = maker.next(alloc)? else {
            return Ok(None);
        };
        match admit(alloc, rec, &self.library, 0, self.ordinal) {
            Ok(made) => {
                self.maker = maker;
                self.ordinal += 1;
                Ok(Some(made))
            }
            Err(RecordFault::NoMemory) => Err(NoMemory),
            // admission refuses no record of a workload
            Err(RecordFault::Refused(_)) => unreachable!(),
        }
    }
}
