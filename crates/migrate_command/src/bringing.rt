//! The history of a journal of version 1 is brought into the journal of another name.
ghost use Rattle.std.specs.Prelude.{◌≡◌, ◌≢◌, ℕ, List, [], ◌∷◌, length, true, None, IfOk, IfErr, OnOk};
ghost use Rattle.outside.specs.Room.{SameBut};
ghost use Rattle.entry_record.specs.History.{IsWithin};
ghost use Rattle.durable_catalogue.specs.Logs.{HasHistory};
ghost use Rattle.console_lines.specs.declared.fault.Fault.TheVariants.{Device};
ghost use Rattle.journal_files.specs.Journals.{journal_limits, log_bytes};
ghost use Rattle.migrate_command.specs.Bringing.{IsTakenInto, IsNotTaken, IsBroughtInto, IsUnbrought, IsBroughtOver};
ghost use Rattle.migrate_command.specs.Migrates.{BringsInto, IsSettledLog};

use crate::migration::migrate;
use crate::told::fault_of_migrating;
use console_lines::Fault;
use entry_history::EntryPayload;
use journal_files::{HistoryEntries, close_history, fault_of_opening, limits_of, open_history};
use outside::Room;
use std::alloc::Global;

/// Brings a history into the file of that name, in version 2, whatever version it stood in, within the room's limits. Its entries are
/// given up.
pub fn bring_history<R: Room>(
    alloc: Global,
    room: &mut R,
    history: Vec<EntryPayload>,
    into: &str,
) -> Result<(), Fault>
    requires free { (R.seen room.old).open_as into.now ≡ None }
    requires within { IsWithin (journal_limits (R.seen room.old)) history.items }
    ensures apart { SameBut (R.seen room.old) (R.seen room.new) (into.now ∷ []) }
    ensures closed { (R.seen room.new).open_as into.now ≡ None }
    ensures brings { (was : List ℕ) → (R.seen room.old).tells ≡ true → HasHistory history.items was →
        BringsInto history.items (R.seen room.old) (R.seen room.new) into.now }
    ensures taken { OnOk result (IsTakenInto history.items (R.seen room.old) (R.seen room.new) into.now) }
    ensures fault { IfErr result (IsNotTaken history.items (R.seen room.old) (R.seen room.new) into.now) }

    // Unless a device failed, a file that doesn't take it is as it was, byte for byte, and a crash leaves the same of it.
    ensures kept { IfErr result (λ fault. fault ≢ Device → (R.seen room.old).tells ≡ true →
        log_bytes (R.seen room.new) into.now ≡ log_bytes (R.seen room.old) into.now) }
    ensures settled { IfErr result (λ fault. fault ≢ Device → (R.seen room.old).tells ≡ true →
        IsSettledLog (R.seen room.old) (R.seen room.new) into.now) }
{
    let limits = limits_of(room);
    let Ok(log) = room.open_log(into) else {
        return Err(Fault::Device);
    };
    match migrate(alloc, history, log, limits) {
        Ok(log) => {
            room.close_log(into, log);
            Ok(())
        }
        Err(failed) => {
            let (log, fault) = failed;
            room.close_log(into, log);
            Err(fault_of_migrating(fault))
        }
    }
}

/// Brings the history of a log of that version into the file of that name, and answers how many entries it has. A log of the newest
/// version is refused before that is opened.
fn bring_old<R: Room>(
    alloc: Global,
    room: &mut R,
    version: u8,
    history: Vec<EntryPayload>,
    into: &str,
) -> Result<u64, Fault>
    requires free { (R.seen room.old).open_as into.now ≡ None }
    requires within { IsWithin (journal_limits (R.seen room.old)) history.items }
    ensures apart { SameBut (R.seen room.old) (R.seen room.new) (into.now ∷ []) }
    ensures closed { (R.seen room.new).open_as into.now ≡ None }
    ensures brings { (was : List ℕ) → (R.seen room.old).tells ≡ true → HasHistory history.items was →
        BringsInto history.items (R.seen room.old) (R.seen room.new) into.now }
    ensures counted { IfOk result (λ count. count ≡ length history.items) }
    ensures brought { OnOk result (IsBroughtInto history.items version (R.seen room.old) (R.seen room.new) into.now) }
    ensures fault { IfErr result (IsUnbrought history.items version (R.seen room.old) (R.seen room.new) into.now) }
    ensures kept { IfErr result (λ fault. fault ≢ Device → (R.seen room.old).tells ≡ true →
        log_bytes (R.seen room.new) into.now ≡ log_bytes (R.seen room.old) into.now) }
    ensures settled { IfErr result (λ fault. fault ≢ Device → (R.seen room.old).tells ≡ true →
        IsSettledLog (R.seen room.old) (R.seen room.new) into.now) }
{
    if version != 1 {
        return Err(Fault::OldVersion);
    }
    let count = history.len() as u64;
    match bring_history(alloc, room, history, into) {
        Ok(()) => Ok(count),
        Err(fault) => Err(fault),
    }
}

/// Brings the history of the file `from` into the file `into`, and answers how many entries it has.
pub fn bring_over<R: Room>(
    alloc: Global,
    room: &mut R,
    from: &str,
    into: &str,
) -> Result<u64, Fault>
    requires closed { (name : List ℕ) → (R.seen room.old).open_as name ≡ None }
    requires differ { from.now ≢ into.now }
    ensures closed { (name : List ℕ) → (R.seen room.new).open_as name ≡ None }
    ensures apart { SameBut (R.seen room.old) (R.seen room.new) (from.now ∷ into.now ∷ []) }
    ensures over { IsBroughtOver from.now into.now (R.seen room.old) (R.seen room.new) result }
{
    let mut taken = HistoryEntries::new(alloc);
    let log = match open_history(alloc, room, from, &mut taken) {
        Ok(log) => log,
        Err(fault) => return Err(fault_of_opening(fault)),
    };
    let version = log.version().number();
    let brought = bring_old(alloc, room, version, taken.into_vec(), into);
    close_history(room, from, log);
    brought
}
