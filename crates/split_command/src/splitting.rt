//! The command `split`.
ghost use Rattle.std.specs.Prelude.{◌≡◌, ◌≤◌, ℕ, List, [], ◌∷◌, true, None, Some, IfOk, IfErr, OnOk, length};
ghost use Rattle.outside.specs.Room.{SameBut};
ghost use Rattle.outside.specs.Fault.{HasCause};
ghost use Rattle.console_lines.specs.Ends.{outcome};
ghost use Rattle.split_command.specs.Outputs.{IsPutOrOld};
ghost use Rattle.split_command.specs.Names.{split_names};
ghost use Rattle.split_command.specs.Splitting.{AreProper, Splits};
ghost use Rattle.split_command.specs.Written.{IsWritten, IsStopped, WritesFiles};

use crate::fault::SplitFault;
use crate::files::deal_files;
use crate::listing::parts_text;
use crate::names::parts_name;
use crate::plan::Plan;
use crate::standing::is_free;
use crate::survey::Survey;
use crate::surveying::survey_files;
use command_words::Library;
use console_lines::{End, Fault, Unwritten, tell, tell_result};
use marc_types::Text;
use outside::{Failed, Room, Sink};
use std::alloc::Global;

/// What the console is to be told of a split that was written.
#[derive(Drop)]
struct Told {
    text: String,
    has_refused: bool,
}

/// Writes a text into the file of that name, whole or not at all.
#[tactic(auto, using(outside::proofs::Rooms::untouched_then))]
fn write_text<R: Room>(room: &mut R, name: &str, text: &str) -> Result<(), Failed>
    requires { (R.seen room.old).open_as name.now ≡ None }
    ensures apart { SameBut (R.seen room.old) (R.seen room.new) (name.now ∷ []) }
    ensures closed { (R.seen room.new).open_as name.now ≡ None }
    ensures whole { OnOk result ((R.seen room.old).tells ≡ true → (R.seen room.new).file name.now ≡ Some text.now) }
    ensures left { (R.seen room.old).tells ≡ true → IsPutOrOld (R.seen room.old) (R.seen room.new) name.now (Some text.now) }
    ensures cause { HasCause ((R.seen room.old).out_faults name.now) ((R.seen room.new).out_faults name.now) result }
{
    let mut out = room.open_out(name)?;
    if let Err(failed) = out.write_all(text.as_bytes()) {
        room.give_up_out(name, out);
        return Err(failed);
    }
    room.close_out(name, out)
}

/// Writes the shares of all files, and then what says how the parts were cut.
#[tactic(auto, using(crate::proofs::Brought::nothing_written, crate::proofs::Brought::all_written, crate::proofs::Brought::written_or_not, crate::proofs::Brought::part_written, crate::proofs::Brought::files_cause, crate::proofs::Brought::parts_fault))]
fn write_all<R: Room>(
    alloc: Global,
    room: &mut R,
    plan: &Plan,
    libraries: &[Library],
) -> Result<(), SplitFault>
    requires proper { AreProper libraries.now }
    requires closed { (name : List ℕ) → (R.seen room.old).open_as name ≡ None }
    requires few { plan.now.parts ≤ 1024 }
    ensures closed { (name : List ℕ) → (R.seen room.new).open_as name ≡ None }
    ensures apart { SameBut (R.seen room.old) (R.seen room.new) (split_names plan.now.prefix plan.now.parts (length libraries.now)) }
    ensures writes { WritesFiles (R.seen room.old) (R.seen room.new) plan.now libraries.now result }
{
    let name = parts_name(alloc, plan.prefix.as_str())?;
    let text = parts_text(alloc, plan.parts, libraries, plan.bounds.as_slice())?;
    deal_files(alloc, room, plan, libraries)?;
    match write_text(room, name.as_str(), text.as_str()) {
        Ok(()) => Ok(()),
        Err(Failed) => Err(SplitFault::Output),
    }
}

/// Reads the files, and writes what they are cut into, where nothing of that is there.
#[tactic(auto, using(crate::proofs::Brought::stopped_at_once, crate::proofs::Brought::stopped_at_file, crate::proofs::Brought::stopped_reading, crate::proofs::Brought::brought_whole, crate::proofs::Brought::brought_part))]
fn split_files<R: Room>(
    alloc: Global,
    room: &mut R,
    parts: u64,
    prefix: &str,
    libraries: &[Library],
) -> Result<Told, SplitFault>
    requires closed { (name : List ℕ) → (R.seen room.old).open_as name ≡ None }
    requires proper { AreProper libraries.now }
    requires some { 2 ≤ parts }
    requires most { parts ≤ 1024 }
    ensures closed { (name : List ℕ) → (R.seen room.new).open_as name ≡ None }
    ensures apart { SameBut (R.seen room.old) (R.seen room.new) (split_names prefix.now parts (length libraries.now)) }
    ensures written { IfOk result (λ told. IsWritten parts prefix.now libraries.now (R.seen room.old) (R.seen room.new) told) }
    ensures stopped { IfErr result (IsStopped parts prefix.now libraries.now (R.seen room.old) (R.seen room.new)) }
{
    if !is_free(alloc, room, prefix, parts, libraries.len() as u64)? {
        return Err(SplitFault::Output);
    }
    let Survey {
        sample,
        text,
        has_refused,
    } = survey_files(alloc, room, libraries)?;
    let plan = Plan {
        parts,
        prefix: Text::from_str(alloc, prefix)?,
        bounds: sample.into_bounds(alloc, parts)?,
    };
    write_all(alloc, room, &plan, libraries)?;
    Ok(Told { text, has_refused })
}

/// The command `split`: cuts the files of libraries into the shares of that many parts, each a file of its own, and tells the refused
/// pieces. It writes nothing where a file of one of its names is there. It reads each file more than once.
#[tactic(auto, using(crate::proofs::Ended::splits_written, crate::proofs::Ended::splits_unwritten, crate::proofs::Ended::splits_input, crate::proofs::Ended::splits_memory))]
pub fn split<R: Room>(
    alloc: Global,
    room: &mut R,
    console: &mut R::Out,
    parts: u64,
    prefix: &str,
    libraries: &[Library],
) -> End
    requires closed { (name : List ℕ) → (R.seen room.old).open_as name ≡ None }
    requires proper { AreProper libraries.now }
    requires some { 2 ≤ parts }
    requires most { parts ≤ 1024 }
    ensures closed { (name : List ℕ) → (R.seen room.new).open_as name ≡ None }
    ensures apart { SameBut (R.seen room.old) (R.seen room.new) (split_names prefix.now parts (length libraries.now)) }
    ensures ends { Splits parts prefix.now libraries.now
        (outcome R.seen R.Out.written R.Out.faults room.old room.new console.old console.new result) }
{
    match split_files(alloc, room, parts, prefix, libraries) {
        Ok(told) => tell_result(console, told.text.as_str(), told.has_refused),
        Err(SplitFault::Output) => End::Unwritten(Unwritten::Out),
        Err(SplitFault::Input) => tell(console, Fault::Input),
        Err(SplitFault::Memory) => tell(console, Fault::Memory),
    }
}
