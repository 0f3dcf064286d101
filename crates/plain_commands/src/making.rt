ghost use Rattle.marc_types.specs.Limits.{most_made};
ghost use Rattle.std.specs.Prelude.{◌≡◌, ◌≤◌, ℕ, List, None, ◌∷◌, []};
ghost use Rattle.outside.specs.Room.{SameBut};
ghost use Rattle.console_lines.specs.Ends.{outcome};
ghost use Rattle.plain_commands.specs.Making.{Makes};

use crate::summing::workload_text;
use console_lines::{End, Fault, Unwritten, tell};
use marc_types::NoMemory;
use output_files::{Document, write_document};
use outside::{Room, Sink, WriteFault};
use std::alloc::Global;
use std::marker::Model;

/// A workload of at most 1,048,576 records, as a document: each record is made when it is written. Contracts see its bytes.
#[derive(Drop)]
struct Workload {
    alloc: Global,
    seed: u64,
    count: u64,
}

impl Model for Workload {
    ghost use Rattle.std.specs.Prelude.{List, ℕ, ◌≤◌};
    ghost use Rattle.marc_types.specs.Limits.{most_made};
    ghost use Rattle.workload.specs.Workload.{workload_bytes};

    ghost Value = { List ℕ };

    ghost view = { λ w. workload_bytes w.seed w.count };

    ghost invariant = { λ w. w.count ≤ most_made };
}

impl Document for Workload {
    ghost due = { λ workload. workload };

    ghost takes_memory = { λ _. Unit {0} };

    fn write_to<K: Sink>(self, out: &mut K) -> Result<(), WriteFault> {
        workload::make(self.alloc, self.seed, self.count, out)
    }
}

/// The command `make`: writes a workload of at most 1,048,576 records into the file `out`, and tells what their commits to an
/// empty catalogue answer.
#[tactic(auto, using(outside::proofs::Closings::closed_one))]
pub fn make<R: Room>(
    alloc: Global,
    room: &mut R,
    console: &mut R::Out,
    seed: u64,
    count: u64,
    out: &str,
) -> End
    requires few { count ≤ most_made }
    requires closed { (name : List ℕ) → (R.seen room.old).open_as name ≡ None }
    ensures closed { (name : List ℕ) → (R.seen room.new).open_as name ≡ None }
    ensures apart { SameBut (R.seen room.old) (R.seen room.new) (out.now ∷ []) }
    ensures ends { Makes seed count out.now
        (outcome R.seen R.Out.written R.Out.faults room.old room.new console.old console.new result) }
{
    let text = match workload_text(alloc, seed, count) {
        Ok(text) => text,
        Err(NoMemory) => return tell(console, Fault::Memory),
    };
    match write_document(room, out, Workload { alloc, seed, count }) {
        Ok(()) => {}
        Err(WriteFault::OutputFault) => return End::Unwritten(Unwritten::Out),
        Err(WriteFault::NoMemory) => return tell(console, Fault::Memory),
    }
    match console.write_all(text.as_bytes()) {
        Ok(()) => End::Done,
        Err(_) => End::Unwritten(Unwritten::Console),
    }
}
