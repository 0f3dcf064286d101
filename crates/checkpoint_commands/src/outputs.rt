//! The outputs of a state: its export, and its report where one is asked for.
ghost use Rattle.std.specs.Prelude.{◌≡◌, ◌≢◌, ℕ, List, [], ◌∷◌, true, None, Some, All, IfErr, IfSome, OnOk};
ghost use Rattle.std.specs.Option.{option_copied};
ghost use Rattle.outside.specs.Room.{SameBut};
ghost use Rattle.checkpoint_commands.specs.Exporting.{AreOutputsOf, WhyUnwritten, outputs_of};

use catalogue_core::Engine;
use console_lines::{OutputsFault, Unwritten};
use output_files::{Export, state_report_bytes, write_document, write_in_turn};
use outside::Room;
use std::alloc::Global;

/// Writes all records of a state into the file `out`. All memory is taken before it is begun.
#[tactic(auto, using(outside::proofs::Rooms::same_but_itself))]
fn write_export<R: Room>(
    alloc: Global,
    room: &mut R,
    out: &str,
    engine: &Engine,
) -> Result<(), OutputsFault>
    requires { (R.seen room.old).open_as out.now ≡ None }
    ensures apart { SameBut (R.seen room.old) (R.seen room.new) (out.now ∷ []) }
    ensures closed { (R.seen room.new).open_as out.now ≡ None }
    ensures written { OnOk result ((R.seen room.old).tells ≡ true → AreOutputsOf engine.now.state out.now None (R.seen room.new)) }
    ensures unwritten { IfErr result (WhyUnwritten engine.now.state out.now None (R.seen room.old) (R.seen room.new)) }
{
    let Ok(export) = Export::of_state(alloc, engine, None) else {
        return Err(OutputsFault::NoMemory);
    };
    match write_document(room, out, export) {
        Ok(()) => Ok(()),
        Err(_) => Err(OutputsFault::Unwritten(Unwritten::Out)),
    }
}

/// Writes all records of a state into the file `out`, and then its report into the file `report`. All memory is taken before either is
/// begun.
#[tactic(auto, using(outside::proofs::Rooms::same_but_itself))]
fn write_export_and_report<R: Room>(
    alloc: Global,
    room: &mut R,
    out: &str,
    report: &str,
    engine: &Engine,
) -> Result<(), OutputsFault>
    requires free { (R.seen room.old).open_as out.now ≡ None }
    requires report_free { (R.seen room.old).open_as report.now ≡ None }
    requires differ { out.now ≢ report.now }
    ensures apart { SameBut (R.seen room.old) (R.seen room.new) (out.now ∷ report.now ∷ []) }
    ensures closed { (R.seen room.new).open_as out.now ≡ None }
    ensures report_closed { (R.seen room.new).open_as report.now ≡ None }
    ensures written { OnOk result ((R.seen room.old).tells ≡ true →
        AreOutputsOf engine.now.state out.now (Some report.now) (R.seen room.new)) }
    ensures unwritten { IfErr result (WhyUnwritten engine.now.state out.now (Some report.now) (R.seen room.old) (R.seen room.new)) }
{
    let Ok(made) = state_report_bytes(alloc, engine) else {
        return Err(OutputsFault::NoMemory);
    };
    let Ok(export) = Export::of_state(alloc, engine, None) else {
        return Err(OutputsFault::NoMemory);
    };
    match write_in_turn(room, out, export, report, made) {
        Ok(()) => Ok(()),
        Err(which) => Err(OutputsFault::Unwritten(which)),
    }
}

/// Writes all records of a state into the file `out`, and then its report into the file `report`, where one is asked for. All memory is
/// taken before either is begun.
pub(crate) fn write_outputs<R: Room>(
    alloc: Global,
    room: &mut R,
    out: &str,
    report: Option<&str>,
    engine: &Engine,
) -> Result<(), OutputsFault>
    requires free { All (λ name. (R.seen room.old).open_as name ≡ None) (outputs_of out.now (option_copied report)) }
    requires differ { IfSome (option_copied report) (λ name. out.now ≢ name) }
    ensures apart { SameBut (R.seen room.old) (R.seen room.new) (outputs_of out.now (option_copied report.entry)) }
    ensures closed { (name : List ℕ) → (R.seen room.old).open_as name ≡ None → (R.seen room.new).open_as name ≡ None }
    ensures written { OnOk result ((R.seen room.old).tells ≡ true →
        AreOutputsOf engine.now.state out.now (option_copied report.entry) (R.seen room.new)) }
    ensures unwritten { IfErr result
        (WhyUnwritten engine.now.state out.now (option_copied report.entry) (R.seen room.old) (R.seen room.new)) }
{
    match report {
        Some(report) => write_export_and_report(alloc, room, out, report, engine),
        None => write_export(alloc, room, out, engine),
    }
}
