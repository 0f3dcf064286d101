//! The table of a history, which takes entry by entry.
ghost use Rattle.std.specs.Prelude.{◌≡◌, []};
ghost use Rattle.match_report.specs.Matches.{table_after};

use entry_record::Prepared;
use journal_files::EntryTaker;
use marc_types::NoMemory;
use match_report::Matches;
use std::alloc::Global;

/// The numbers of a history's records.
#[derive(Drop)]
pub struct HistoryMatches {
    pub table: Matches,
}

impl HistoryMatches {
    /// Of no entry.
    #[tactic(auto, unfolding(match_report::specs::Matches::table_after))]
    pub fn new(alloc: Global) -> HistoryMatches
        ensures { result.table ≡ table_after [] }
    {
        HistoryMatches {
            table: Matches::new(alloc),
        }
    }
}

impl EntryTaker for HistoryMatches {
    ghost use Rattle.std.specs.Prelude.{◌≡◌};
    ghost use Rattle.match_report.specs.Matches.{table_after};

    ghost has = { λ begun m entries. m.table ≡ table_after entries };

    fn take(&mut self, alloc: Global, item: Prepared) -> Result<(), NoMemory> {
        self.table.put(alloc, item.entry())
    }
}
