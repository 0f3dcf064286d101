//! The outputs of a run.
ghost use Rattle.std.specs.Prelude.{◌≡◌, ◌≢◌, [], ◌∷◌, true, None, OnOk, IfErr};
ghost use Rattle.outside.specs.Room.{SameBut};
ghost use Rattle.loading_commands.specs.Outputs.{AreUnwritten};
ghost use Rattle.loading_commands.specs.Runs.{AreOutputs};

use catalogue_core::Catalogue;
use console_lines::OutputsFault;
use output_files::{Export, report_bytes, write_in_turn};
use outside::Room;
use std::alloc::Global;

/// Writes the export of a catalogue into the file `out`, and then its report into the file `report`. All memory is taken before either
/// is begun.
#[tactic(auto, using(outside::proofs::Rooms::same_but_itself, crate::proofs::Written::nothing_begun))]
pub fn write_outputs<R: Room>(
    alloc: Global,
    room: &mut R,
    out: &str,
    report: &str,
    core: &Catalogue,
) -> Result<(), OutputsFault>
    requires free { (R.seen room.old).open_as out.now ≡ None }
    requires report_free { (R.seen room.old).open_as report.now ≡ None }
    requires differ { report.now ≢ out.now }
    requires staged { core.now.staged ≡ [] }
    ensures apart { SameBut (R.seen room.old) (R.seen room.new) (out.now ∷ report.now ∷ []) }
    ensures closed { (R.seen room.new).open_as out.now ≡ None }
    ensures report_closed { (R.seen room.new).open_as report.now ≡ None }
    ensures whole { OnOk result ((R.seen room.old).tells ≡ true → AreOutputs (R.seen room.new) out.now report.now core.now.history) }
    ensures unwritten { IfErr result (AreUnwritten (R.seen room.old) (R.seen room.new) out.now report.now core.now.history) }
{
    let Ok(made) = report_bytes(alloc, core) else {
        return Err(OutputsFault::NoMemory);
    };
    let Ok(export) = Export::of(alloc, core, None) else {
        return Err(OutputsFault::NoMemory);
    };
    match write_in_turn(room, out, export, report, made) {
        Ok(()) => Ok(()),
        Err(which) => Err(OutputsFault::Unwritten(which)),
    }
}
