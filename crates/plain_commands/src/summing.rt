ghost use Rattle.marc_types.specs.Limits.{most_made};
ghost use Rattle.std.specs.Prelude.{◌≡◌, ◌<◌, ◌≤◌, ◌++◌, false, length, OnOk, IfOk, string_bytes};
ghost use Rattle.entry_record.specs.History.{entries_size};
ghost use Rattle.plain_commands.specs.Loading.{lacks_room, with_accepted};
ghost use Rattle.plain_commands.specs.Making.{workload_sums, workload_line};

use crate::entries::Entries;
use crate::laws::workloads_are_within_limits;
use crate::loaded::Loaded;
use catalogue_core::CoreFault;
use catalogue_rules::Steps;
use console_lines::made_line;
use entry_record::Prepared;
use marc_types::{Limits, NoMemory, Sums};
use std::alloc::Global;
use std::marker::Brand;
use std::sync::ledger::{Blank, Ledger};

/// Commits an entry that there is room for.
fn commit<L: Ledger>(
    alloc: Global,
    loaded: &mut Loaded,
    entry: Prepared,
    steps: &mut Steps<L>,
) -> Result<(), NoMemory>
    requires { lacks_room loaded.old.limits loaded.old.accepted entry ≡ false }
    ensures { OnOk result (loaded.new ≡ with_accepted loaded.old entry) }
{
    match loaded.commit(alloc, entry, steps) {
        Ok(()) => Ok(()),
        Err(CoreFault::NoMemory) => Err(NoMemory),
        // full only where there is no room
        Err(CoreFault::Full) => unreachable!(),
    }
}

/// Commits the entries that are still to come, for all of which there is room.
#[tactic(auto, using(crate::proofs::Committed::committed_next, crate::proofs::Committed::committed_all))]
fn commit_all<L: Ledger>(
    alloc: Global,
    entries: &mut Entries,
    loaded: &mut Loaded,
    steps: &mut Steps<L>,
) -> Result<(), NoMemory>
    requires few { length (loaded.old.accepted ++ entries.old) ≤ loaded.old.limits.entries }
    requires small { entries_size (loaded.old.accepted ++ entries.old) ≤ loaded.old.limits.bytes }
    ensures { OnOk result (loaded.new.accepted ≡ loaded.old.accepted ++ entries.old) }
{
    'entries: while let Some(entry) = entries.next(alloc)? {
        commit(alloc, loaded, entry, steps)?;
    }
    Ok(())
}

/// The sums over a workload's receipts, where nobody asks for the steps of its commits.
fn sum_counted<L: Ledger>(
    alloc: Global,
    seed: u64,
    count: u64,
    blank: Blank,
) -> Result<Sums, NoMemory>
    requires few { count ≤ most_made }
    requires name { blank.name ≡ L.name }
    requires parts { blank.parts ≡ L.parts }
    requires shared { 0 < blank.parts }
    ensures { IfOk result (λ sums. sums ≡ workload_sums seed count) }
{
    workloads_are_within_limits(seed, count);
    let mut steps = Steps::<L>::new(blank);
    let mut entries = Entries::new(alloc, seed, count)?;
    let mut loaded = Loaded::new(alloc, Limits::PLAIN);
    commit_all(alloc, &mut entries, &mut loaded, &mut steps)?;
    Ok(loaded.sums())
}

/// Commits the records of a workload to an empty catalogue, and sums their receipts.
fn sum_workload(alloc: Global, seed: u64, count: u64) -> Result<Sums, NoMemory>
    requires { count ≤ most_made }
    ensures { IfOk result (λ sums. sums ≡ workload_sums seed count) }
{
    sum_counted::<Brand>(alloc, seed, count, Blank::new(1))
}

/// What the console is told of a workload.
pub fn workload_text(alloc: Global, seed: u64, count: u64) -> Result<String, NoMemory>
    requires { count ≤ most_made }
    ensures { IfOk result (λ text. string_bytes text ≡ workload_line seed count) }
{
    made_line(alloc, count, &sum_workload(alloc, seed, count)?)
}
