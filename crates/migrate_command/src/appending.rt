//! The rest of a history is appended to a journal.
ghost use Rattle.std.specs.Prelude.{◌≡◌, ◌<◌, ◌≤◌, false, length, take, All, List, ℕ, IfOk, IfErr, OnOk, MatchResult};
ghost use Rattle.commit_journal.specs.declared.format.TheConstants.{LARGEST_APPEND};
ghost use Rattle.commit_journal.specs.Journal.{Continues, IsPayload, frames_len};
ghost use Rattle.commit_journal.specs.Versions.{number_of};
ghost use Rattle.marc_types.specs.declared.entry.Entry.{Entry as AnyEntry};
ghost use Rattle.marc_types.specs.declared.entry.Limits.{Limits as AnyLimits};
ghost use Rattle.outside.specs.Fault.{HasCause};
ghost use Rattle.durable_catalogue.specs.Logs.{HasHistory};
ghost use Rattle.migrate_command.specs.declared.fault.MigrateFault.TheVariants.{DeviceFault};
ghost use Rattle.migrate_command.specs.Fronts.{ArePayloads, AreRest, BringsRest, FindsRest, HasBroughtRest, AddsEntries, TriesEntries};
ghost use Rattle.migrate_command.specs.Migrations.{IsMigrated, IsMigration, IsRefusedHistory};

use crate::MigrateFault;
use commit_journal::{FoundLog, Journal, LARGEST_APPEND, LENGTH_BYTES, Version};
use outside::{Bytes, Disk};

/// How many payloads are appended at once: as many as one append may write.
fn run_length(payloads: &[Bytes]) -> usize
    ensures within { result ≤ length payloads.now }
    ensures fits { frames_len (take result payloads.now) ≤ LARGEST_APPEND }
{
    let mut room = LARGEST_APPEND;
    for (count, payload) in payloads.iter().enumerate() {
        // a frame has its payload's length, the payload and a gate
        let Some(left) = room.checked_sub(payload.len()) else {
            return count;
        };
        if left < LENGTH_BYTES + 1 {
            return count;
        }
        room = left - (LENGTH_BYTES + 1);
    }
    payloads.len()
}

/// Where a run ends that begins with the payload there.
fn run_end(payloads: &[Bytes], at: usize) -> usize
    requires { at < length payloads.now }
    ensures after { at < result }
    ensures within { result ≤ length payloads.now }
{
    // no payload is longer than an append may be, so that a run has one at least
    at + run_length(&payloads[at..]).max(1)
}

/// Appends entries' payloads at once, each in a frame of its own.
fn append_run<D: Disk>(
    journal: &mut Journal<D>,
    run: &[Bytes],
) -> Result<(), commit_journal::DeviceFault>
    requires whole { journal.old.broken ≡ false }
    requires newest { journal.old.version ≡ Version.Two }
    requires fit { All IsPayload run.now }
    ensures added { OnOk result ((entries : List AnyEntry) → ArePayloads entries run.now → AddsEntries entries (D.seen journal.old.disk) (D.seen journal.new.disk)) }
    ensures tried { (entries : List AnyEntry) → ArePayloads entries run.now → TriesEntries entries (D.seen journal.old.disk) (D.seen journal.new.disk) }
    ensures whole { OnOk result (journal.new.broken ≡ false) }
    ensures version { journal.new.version ≡ Version.Two }
    ensures continues { Continues (D.seen journal.old.disk) (D.seen journal.new.disk) }
    ensures cause { HasCause (D.seen journal.old.disk).faults (D.seen journal.new.disk).faults result }
{
    journal.append_all(run)
}

/// Appends the payloads of what a history has behind its first entries, in runs.
fn bring_rest<D: Disk>(journal: &mut Journal<D>, payloads: &[Bytes]) -> Result<(), MigrateFault>
    requires whole { journal.old.broken ≡ false }
    requires newest { journal.old.version ≡ Version.Two }
    requires fit { All IsPayload payloads.now }
    ensures continues { Continues (D.seen journal.old.disk) (D.seen journal.new.disk) }
    ensures brings { (history : List AnyEntry) (count : ℕ) → AreRest history count payloads.now
        → BringsRest history count (D.seen journal.old.disk) (D.seen journal.new.disk) }
    ensures whole { OnOk result ((journal.new.broken ≡ false) × (journal.new.version ≡ Version.Two)) }
    ensures brought { OnOk result ((history : List AnyEntry) (count : ℕ) → AreRest history count payloads.now
        → HasBroughtRest history count (D.seen journal.old.disk) (D.seen journal.new.disk)) }
    ensures device { IfErr result (λ fault. fault ≡ DeviceFault) }
    ensures cause { HasCause (D.seen journal.old.disk).faults (D.seen journal.new.disk).faults result }
{
    let mut at = 0;
    'runs: while at < payloads.len() {
        let end = run_end(payloads, at);
        append_run(journal, &payloads[at..end])?;
        at = end;
    }
    Ok(())
}

/// Brings the rest of a history into a log that was found, which has its first entries: these are the payloads of the others. The log is
/// settled, and they are appended. A fault hands the disk back.
pub fn bring_into<D: Disk>(found: FoundLog<D>, payloads: Vec<Bytes>) -> Result<D, (D, MigrateFault)>
    requires newest { found.version ≡ Version.Two }
    requires fit { All IsPayload payloads.items }
    ensures brought { (before : D) (limits : AnyLimits) (history : List AnyEntry)
        → FindsRest limits history payloads.items found.place (number_of found.version) (D.seen before) (D.seen found.disk)
        → IfOk result (λ disk. IsMigrated limits history (D.seen before) (D.seen disk)) }
    ensures crash { (was : List ℕ) (before : D) (limits : AnyLimits) (history : List AnyEntry) → HasHistory history was
        → FindsRest limits history payloads.items found.place (number_of found.version) (D.seen before) (D.seen found.disk)
        → MatchResult result (λ disk. IsMigration limits history (D.seen before) (D.seen disk))
        (λ e. IsMigration limits history (D.seen before) (D.seen e.0)) }
    ensures refused { (before : D) (limits : AnyLimits) (history : List AnyEntry)
        → FindsRest limits history payloads.items found.place (number_of found.version) (D.seen before) (D.seen found.disk)
        → IfErr result (λ e. IsRefusedHistory limits history (D.seen before) (D.seen e.0) e.1) }
    ensures later { MatchResult result (λ disk. (D.seen found.disk).faults ≤ (D.seen disk).faults) (λ e. (D.seen found.disk).faults ≤ (D.seen e.0).faults) }
{
    match found.settle() {
        Ok(journal) => {
            let mut journal = journal;
            match bring_rest(&mut journal, payloads.as_slice()) {
                Ok(()) => Ok(journal.close()),
                Err(fault) => Err((journal.close(), fault)),
            }
        }
        Err(failed) => {
            let (disk, _fault) = failed;
            Err((disk, MigrateFault::DeviceFault))
        }
    }
}
