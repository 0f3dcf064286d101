ghost use Rattle.std.specs.Prelude.{◌≡◌};
ghost use Rattle.loader_workers.specs.Counts.{no_counts, result_of, CanCount, HasCounted};

use crate::file_end::FileEnd;
use crate::result::FileResult;
use file_entries::{Refused, RefusedItem};
use marc_types::{Receipt, Sums};

/// How many entries were committed, and the sums over their receipts.
#[derive(Clone, Copy, Debug, PartialEq, Eq)]
pub struct Counts {
    pub accepted: u64,
    pub sums: Sums,
}

impl Counts {
    /// Of no entry.
    pub fn none() -> Counts
        ensures { result ≡ no_counts }
    {
        Counts {
            accepted: 0,
            sums: Sums::none(),
        }
    }

    /// Adds the receipts of a batch.
    #[tactic(auto, using(marc_types::proofs::Adding::room_in_few))]
    pub fn add(&mut self, receipts: &[Receipt])
        requires room { CanCount self.old receipts.now }
        ensures { HasCounted self.old self.new receipts.now }
    {
        for receipt in receipts {
            self.accepted += 1;
            self.sums.add(receipt);
        }
    }

    /// The result with these counts.
    pub fn result(self, refused: Vec<RefusedItem>, end: FileEnd) -> FileResult
        ensures { result ≡ result_of self refused.items end }
    {
        FileResult {
            refused: Refused::from_vec(refused),
            accepted: self.accepted,
            sums: self.sums,
            end,
        }
    }
}
