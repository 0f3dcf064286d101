//! A history is brought into the journal of another disk.
ghost use Rattle.std.specs.Prelude.{◌≤◌, ℕ, List, IfOk, IfErr, MatchResult};
ghost use Rattle.entry_record.specs.History.{IsWithin};
ghost use Rattle.durable_catalogue.specs.Logs.{HasHistory};
ghost use Rattle.migrate_command.specs.Migrations.{IsMigrated, IsMigration, IsRefusedHistory};

use crate::MigrateFault;
use crate::appending::bring_into;
use crate::fault::migrate_fault;
use crate::front::rest_of;
use commit_journal::FoundLog;
use entry_history::EntryPayload;
use marc_types::Limits;
use outside::Disk;
use std::alloc::Global;

/// Brings the history of a journal, which is within the limits, into the journal of another disk: it opens that, and appends the entries
/// that are missing there, each in a frame of its own with its run, its loader and its library, as many at once as one append may write.
/// What it began it goes on with when it is called again. A fault hands the disk back.
pub fn migrate<D: Disk>(
    alloc: Global,
    history: Vec<EntryPayload>,
    new: D,
    limits: Limits,
) -> Result<D, (D, MigrateFault)>
    requires { IsWithin limits history.items }

    // The new log had a front of the old history, within the limits, and has all of it now.
    ensures migrated { IfOk result (λ disk. IsMigrated limits history.items (D.seen new) (D.seen disk)) }

    // Each image since the first sync of the new disk has the history that it had, or, where its log was fit, more of the old one, and
    // is then of version 2.
    ensures crash { (was : List ℕ) → HasHistory history.items was →
        MatchResult result (λ disk. IsMigration limits history.items (D.seen new) (D.seen disk))
        (λ e. IsMigration limits history.items (D.seen new) (D.seen e.0)) }

    // A log that isn't fit for the history is left alone, and gets a fault.
    ensures refused { IfErr result (λ e. IsRefusedHistory limits history.items (D.seen new) (D.seen e.0) e.1) }
    ensures later { MatchResult result (λ disk. (D.seen new).faults ≤ (D.seen disk).faults) (λ e. (D.seen new).faults ≤ (D.seen e.0).faults) }
{
    match FoundLog::find(alloc, new) {
        Ok((found, frames)) => {
            match rest_of(alloc, found.version(), frames.into_vec(), history, &limits) {
                Ok(payloads) => bring_into(found, payloads),
                Err(fault) => Err((found.leave(), fault)),
            }
        }
        Err(failed) => {
            let (disk, fault) = failed;
            Err((disk, migrate_fault(fault)))
        }
    }
}
