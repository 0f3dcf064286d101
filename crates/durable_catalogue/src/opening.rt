//! A log is begun and found, and then taken or refused.
ghost use Rattle.std.specs.Prelude.{◌≡◌, ◌≢◌, ℕ, false, [], List, Some, IfOk, IfErr};
ghost use Rattle.marc_types.specs.declared.entry.Limits.{Limits as AnyLimits};
ghost use Rattle.commit_journal.specs.Begun.{IsBegun};
ghost use Rattle.commit_journal.specs.Log.{version_of};
ghost use Rattle.commit_journal.specs.Versions.{number_of};
ghost use Rattle.durable_catalogue.specs.declared.fault.OpenFault.TheVariants.{DeviceFault, OldVersion, Full};
ghost use Rattle.durable_catalogue.specs.Found.{Finds, RefusesBegun, TakesFound, RefusesFound, RefusesUnloaded};
ghost use Rattle.durable_catalogue.specs.Opened.{IsRefusedDisk};
ghost use Rattle.durable_catalogue.specs.Taking.{WereTaken};

use crate::OpenFault;
use crate::fault::open_fault;
use crate::taking::{EntryTaker, FrameEntries, Reading, counter_of, reading_of};
use commit_journal::{BegunLog, FoundLog, Journal};
use marc_types::Limits;
use outside::Disk;
use std::alloc::Global;

/// Begins a log that a crash may have left: it syncs, and reads the header. It writes nothing. A fault hands the disk back.
pub fn begin_log<D: Disk>(alloc: Global, disk: D) -> Result<BegunLog<D>, (D, OpenFault)>
    ensures begun { IfOk result (λ begun. IsBegun (D.seen disk) (D.seen begun.disk)) }
    ensures named { IfOk result (λ begun. (log : List ℕ) → (D.seen disk).content ≡ Some log → version_of log ≡ number_of begun.version) }
    ensures refused { IfErr result (λ e. (limits : AnyLimits) → IsRefusedDisk limits (D.seen disk) (D.seen e.0) e.1) }
    ensures current { IfErr result (λ e. e.1 ≢ OldVersion) }
    ensures unfilled { IfErr result (λ e. e.1 ≢ Full) }
{
    match BegunLog::begin(alloc, disk) {
        Ok(begun) => Ok(begun),
        Err(failed) => {
            let (disk, fault) = failed;
            Err((disk, open_fault(fault)))
        }
    }
}

/// Finds a log that was begun, hands the entries of its frames on as they are read, and answers what was read. It writes nothing, and no two
/// frames are in memory, but what the taker keeps. A payload that isn't valid ends the handing on, and the reading goes on: what is no
/// journal comes first. A fault hands the disk back; any front of the entries was then handed on.
pub fn find_entries<D: Disk, T: EntryTaker>(
    alloc: Global,
    begun: BegunLog<D>,
    limits: Limits,
    taker: &mut T,
) -> Result<(FoundLog<D>, Reading), (D, OpenFault)>
    requires none { T.has taker.old taker.old [] }
    ensures found { IfOk result (λ r. Finds (λ IsThat. WereTaken (T.has taker.old taker.new) IsThat limits r.1) begun r.0) }
    ensures refused { IfErr result (λ e. RefusesBegun begun e.0 e.1) }
    ensures current { IfErr result (λ e. e.1 ≢ OldVersion) }
    ensures unfilled { IfErr result (λ e. e.1 ≢ Full) }
{
    let counter = counter_of(begun.version());
    let mut entries = FrameEntries {
        taker,
        counter,
        left: Some(limits.bytes),
        bad: None,
    };
    match begun.find(alloc, &mut entries) {
        Ok(found) => match reading_of(&entries.counter, entries.left, entries.bad, limits) {
            Ok(reading) => Ok((found, reading)),
            Err(fault) => Err(refuse_log(found, fault)),
        },
        Err(unfound) => {
            let (disk, fault) = unfound;
            Err((disk, open_fault(fault)))
        }
    }
}

/// Brings a log into order whose payloads were all read, and are taken. It fails only where a device does.
pub fn take_log<D: Disk>(found: FoundLog<D>) -> Result<Journal<D>, (D, OpenFault)>
    ensures taken { IfOk result (TakesFound found) }
    ensures whole { IfOk result (λ j. j.broken ≡ false) }
    ensures version { IfOk result (λ j. j.version ≡ found.version) }
    ensures refused { IfErr result (λ e. RefusesFound found e.0 e.1) }
    ensures device { IfErr result (λ e. e.1 ≡ DeviceFault) }
{
    match found.settle() {
        Ok(journal) => Ok(journal),
        Err(failed) => {
            let (disk, _fault) = failed;
            Err((disk, OpenFault::DeviceFault))
        }
    }
}

/// Gives a log back that isn't taken, with every byte as it was.
pub fn refuse_log<D: Disk>(found: FoundLog<D>, fault: OpenFault) -> (D, OpenFault)
    requires other { fault ≢ DeviceFault }
    ensures refused { RefusesUnloaded found fault result.0 result.1 }
    ensures fault { result.1 ≡ fault }
{
    (found.leave(), fault)
}
