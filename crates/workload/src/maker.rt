ghost use Rattle.std.specs.Prelude.{◌≡◌, ◌≤◌, IfOk, OnErr, IfSome, IsTrue, length};
ghost use Rattle.marc_types.specs.Limits.{most_made};
ghost use Rattle.iso2709_record.specs.Written.{fits};
ghost use Rattle.workload.specs.Workload.{workload, GivesNext};

use crate::drafts::draw_draft;
use crate::draws::Draws;
use crate::records::record_of;
use marc_types::{NoMemory, Record};
use std::alloc::Global;
use std::marker::Model;

/// A maker of a workload's records, one after the other. Contracts see it as the list of those still to come.
#[derive(Clone, Drop)]
pub struct Maker {
    draws: Draws,
    names: u64,
    number: u64,
    left: u64,
}

impl Model for Maker {
    ghost use Rattle.std.specs.Prelude.{◌<◌, ◌≤◌, ◌+◌, List};
    ghost use Rattle.workload.specs.Records.{Contents};
    ghost use Rattle.workload.specs.Workload.{records_from};

    ghost Value = { List Contents };

    ghost view = { λ m. records_from m.names m.left m.number m.draws.state };

    ghost invariant = { λ m. (0 < m.names) × (m.number + m.left ≤ 1048577) };
}

impl Maker {
    /// A maker of all records of a workload of at most 1,048,576.
    #[tactic(auto, using(crate::proofs::Counts::record_count), unfolding(crate::specs::Workload::workload))]
    pub fn new(seed: u64, count: u64) -> Maker
        requires { count ≤ most_made }
        ensures all { result ≡ workload seed count }
        ensures many { length result ≡ count }
    {
        Maker {
            draws: Draws { state: seed },
            names: 1 + count / 16,
            number: 1,
            left: count,
        }
    }

    /// The next record, or none behind the last one. Want of memory changes nothing.
    pub fn next(&mut self, alloc: Global) -> Result<Option<Record>, NoMemory>
        ensures given { IfOk result (λ next. GivesNext self.old self.new next) }
        ensures fits { IfOk result (λ next. IfSome next (λ rec. IsTrue (fits rec.fields))) }
        ensures err { OnErr result (self.new ≡ self.old) }
    {
        if self.left == 0 {
            return Ok(None);
        }
        let mut draws = self.draws;
        let draft = draw_draft(&mut draws, self.names, self.number);
        let rec = record_of(alloc, draft)?;
        self.draws = draws;
        self.number += 1;
        self.left -= 1;
        Ok(Some(rec))
    }
}
