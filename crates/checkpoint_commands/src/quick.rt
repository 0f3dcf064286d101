ghost use Rattle.std.specs.Prelude.{◌≡◌, ◌≢◌, ℕ, List, [], ◌∷◌, true, None, All, IfOk, IfErr, IfSome};
ghost use Rattle.std.specs.Option.{option_copied};
ghost use Rattle.console_lines.specs.Ends.{outcome};
ghost use Rattle.console_lines.specs.Faults.{IsFaultTold, fault_line};
ghost use Rattle.journal_files.specs.Faults.{fault_of_opening};
ghost use Rattle.outside.specs.Room.{IsNoneOf, SameBut};
ghost use Rattle.journal_files.specs.Journals.{log_bytes};
ghost use Rattle.checkpoint_commands.specs.Quick.{ExportsQuickly};
ghost use Rattle.checkpoint_commands.specs.Exporting.{KeepsPoint, IsWrittenFrom, IsNotWrittenFrom, outputs_of};

use crate::outputs::write_outputs;
use crate::point_file::last_of_file;
use crate::resumed::restore;
use console_lines::{End, OutputsFault, Unwritten, tell, write_resumed};
use durable_catalogue::OpenFault;
use entry_history::EntryPayload;
use journal_files::{HistoryEntries, close_history, fault_of_opening, open_history};
use outside::{Room, Sink};
use std::alloc::Global;
use std::mem;

/// Why the outputs of a state that a checkpoint begins aren't there.
#[derive(Clone, Copy, Debug, PartialEq, Eq)]
pub(crate) enum QuickFault {
    /// The log of checkpoints was not taken, or memory ran out. No output was begun.
    Refused(OpenFault),
    /// That output couldn't be written.
    Unwritten(Unwritten),
}

/// Writes the outputs of a history's state, from the last whole checkpoint of the file `point` on: the export into the file `out`, and the
/// report into the file `report`, where one is asked for. Answers how many entries that spared.
fn write_from<R: Room>(
    alloc: Global,
    room: &mut R,
    point: &str,
    out: &str,
    report: Option<&str>,
    entries: &[EntryPayload],
) -> Result<u64, QuickFault>
    requires free { (R.seen room.old).open_as point.now ≡ None }
    requires outs_free { All (λ name. (R.seen room.old).open_as name ≡ None) (outputs_of out.now (option_copied report)) }
    requires differ { IsNoneOf point.now (outputs_of out.now (option_copied report)) }
    requires outs_differ { IfSome (option_copied report) (λ name. out.now ≢ name) }
    ensures apart { SameBut (R.seen room.old) (R.seen room.new) (point.now ∷ outputs_of out.now (option_copied report.entry)) }
    ensures closed { (name : List ℕ) → (R.seen room.old).open_as name ≡ None → (R.seen room.new).open_as name ≡ None }
    ensures keeps { (R.seen room.old).tells ≡ true → KeepsPoint (R.seen room.old) (R.seen room.new) point.now result }
    ensures written { IfOk result
        (IsWrittenFrom entries.now point.now out.now (option_copied report.entry) (R.seen room.old) (R.seen room.new)) }
    ensures refused { IfErr result
        (IsNotWrittenFrom entries.now point.now out.now (option_copied report.entry) (R.seen room.old) (R.seen room.new)) }
{
    let last = match last_of_file(alloc, room, point) {
        Ok(last) => last,
        Err(fault) => return Err(QuickFault::Refused(fault)),
    };
    let Ok(restored) = restore(alloc, last, entries) else {
        return Err(QuickFault::Refused(OpenFault::NoMemory));
    };
    match write_outputs(alloc, room, out, report, &restored.engine) {
        Ok(()) => {
            let taken = restored.taken;
            // the end of the process, which comes soon, gives its memory back
            mem::forget(restored);
            Ok(taken)
        }
        Err(OutputsFault::Unwritten(which)) => Err(QuickFault::Unwritten(which)),
        Err(OutputsFault::NoMemory) => Err(QuickFault::Refused(OpenFault::NoMemory)),
    }
}

/// How the command ends where the outputs aren't there: what refused them is told, and nothing where one couldn't be written.
fn end_of_fault<K: Sink>(console: &mut K, fault: QuickFault) -> End
    ensures refused { (why : OpenFault) → fault ≡ QuickFault.Refused why → result ≡ End.Told (fault_of_opening why) }
    ensures told { (why : OpenFault) → fault ≡ QuickFault.Refused why →
        IsFaultTold (K.written console.old) (K.written console.new) (K.faults console.old) (K.faults console.new) (fault_line (fault_of_opening why)) }
    ensures unwritten { (which : Unwritten) → fault ≡ QuickFault.Unwritten which → result ≡ End.Unwritten which }
    ensures silent { (which : Unwritten) → fault ≡ QuickFault.Unwritten which →
        (K.written console.new ≡ K.written console.old) × (K.faults console.new ≡ K.faults console.old) }
{
    match fault {
        QuickFault::Refused(why) => tell(console, fault_of_opening(why)),
        QuickFault::Unwritten(which) => End::Unwritten(which),
    }
}

/// The command `quick`: writes a journal's records into the file `out`, from the last whole checkpoint of the log `point` and the entries
/// behind it, and then the report into the file `report`, where one is asked for; and tells how many entries that spared, of how many. The
/// journal's history is judged whole before `point` is opened, to which nothing is written.
pub fn export_quickly<R: Room>(
    alloc: Global,
    room: &mut R,
    console: &mut R::Out,
    journal: &str,
    point: &str,
    out: &str,
    report: Option<&str>,
) -> End
    requires closed { (name : List ℕ) → (R.seen room.old).open_as name ≡ None }
    requires apart { IsNoneOf journal.now (point.now ∷ outputs_of out.now (option_copied report)) }
    requires differ { IsNoneOf point.now (outputs_of out.now (option_copied report)) }
    requires outs_differ { IfSome (option_copied report) (λ name. out.now ≢ name) }
    ensures closed { (name : List ℕ) → (R.seen room.new).open_as name ≡ None }
    ensures apart { SameBut (R.seen room.old) (R.seen room.new)
        (journal.now ∷ point.now ∷ outputs_of out.now (option_copied report.entry)) }
    ensures ends { ExportsQuickly journal.now point.now out.now (option_copied report.entry)
        (outcome R.seen R.Out.written R.Out.faults room.old room.new console.old console.new result) }
{
    let mut history = HistoryEntries::new(alloc);
    let log = match open_history(alloc, room, journal, &mut history) {
        Ok(log) => log,
        Err(fault) => return tell(console, fault_of_opening(fault)),
    };
    let entries = history.as_slice();
    let written = write_from(alloc, room, point, out, report, entries);
    close_history(room, journal, log);
    match written {
        Ok(taken) => match write_resumed(console, taken, entries.len() as u64) {
            Ok(()) => {
                // so with that of the entries
                mem::forget(history);
                End::Done
            }
            Err(_) => End::Unwritten(Unwritten::Console),
        },
        Err(fault) => end_of_fault(console, fault),
    }
}
