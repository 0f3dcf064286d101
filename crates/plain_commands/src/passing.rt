ghost use Rattle.std.specs.Prelude.{◌≡◌, ℕ, List, None, IsTrue, ◌∷◌, []};
ghost use Rattle.marc_types.specs.Valid.{is_code};
ghost use Rattle.outside.specs.Room.{SameBut};
ghost use Rattle.console_lines.specs.Ends.{outcome};
ghost use Rattle.plain_commands.specs.Passing.{export_due, TellsMemoryAlone, Delivers, DeliversFile, EndsDelivering, Passes};

use crate::ready::{Ready, prepare};
use command_words::Library;
use console_lines::{End, Fault, Unwritten, tell, tell_result};
use marc_types::{Limits, NoMemory};
use output_files::{Document, Export, write_document};
use outside::{Room, WriteFault};
use std::alloc::Global;
use std::mem;

/// Writes a document whose memory is taken into the file `out`, and then tells the console.
pub(crate) fn deliver<R: Room, D: Document>(
    room: &mut R,
    console: &mut R::Out,
    out: &str,
    ready: &Ready,
    document: D,
) -> End
    requires free { (R.seen room.old).open_as out.now ≡ None }
    requires made { D.takes_memory document → ⊥ }
    ensures apart { SameBut (R.seen room.old) (R.seen room.new) (out.now ∷ []) }
    ensures closed { (R.seen room.new).open_as out.now ≡ None }
    ensures no_fault { (why : Fault) → result ≡ End.Told why → ⊥ }

    // Which of the two could not be written.
    ensures unwritten { EndsDelivering out.now (outcome R.seen R.Out.written R.Out.faults room.old room.new console.old console.new result) }

    // What is there then, of a file with these bytes, where the document is what is due of it.
    ensures delivered { Delivers (D.due document) ready.now out.now
        (outcome R.seen R.Out.written R.Out.faults room.old room.new console.old console.new result) }
{
    match write_document(room, out, document) {
        Ok(()) => tell_result(console, ready.text.as_str(), ready.loaded.has_refused()),
        Err(WriteFault::OutputFault) => End::Unwritten(Unwritten::Out),
        // its memory is taken
        Err(WriteFault::NoMemory) => unreachable!(),
    }
}

/// Writes the export into the file `out`, and then tells the console.
#[tactic(auto, using(outside::proofs::Rooms::same_but_itself))]
fn deliver_export<R: Room>(
    alloc: Global,
    room: &mut R,
    console: &mut R::Out,
    out: &str,
    ready: &Ready,
) -> End
    requires free { (R.seen room.old).open_as out.now ≡ None }
    ensures apart { SameBut (R.seen room.old) (R.seen room.new) (out.now ∷ []) }
    ensures closed { (R.seen room.new).open_as out.now ≡ None }

    // Want of memory alone is told, and then OUT isn't begun.
    ensures fault { TellsMemoryAlone (outcome R.seen R.Out.written R.Out.faults room.old room.new console.old console.new result) }

    // Which of the two could not be written.
    ensures unwritten { EndsDelivering out.now (outcome R.seen R.Out.written R.Out.faults room.old room.new console.old console.new result) }

    // What is there then, of a file with these bytes.
    ensures delivered { DeliversFile export_due ready.now out.now
        (outcome R.seen R.Out.written R.Out.faults room.old room.new console.old console.new result) }
{
    match Export::of(alloc, ready.loaded.core(), None) {
        Ok(export) => deliver(room, console, out, ready, export),
        Err(NoMemory) => tell(console, Fault::Memory),
    }
}

/// The command `pass`: one file through an empty catalogue with the room's limits, into the file `out`. It tells an input's fault, a
/// file that has more than these limits allow, and want of memory.
#[tactic(auto, using(outside::proofs::Closings::closed_one, marc_types::proofs::WithinLimits::limits_within))]
pub fn pass<R: Room>(
    alloc: Global,
    room: &mut R,
    console: &mut R::Out,
    library: &Library,
    out: &str,
) -> End
    requires closed { (name : List ℕ) → (R.seen room.old).open_as name ≡ None }
    requires proper { IsTrue (is_code library.now.code) }
    ensures closed { (name : List ℕ) → (R.seen room.new).open_as name ≡ None }
    ensures apart { SameBut (R.seen room.old) (R.seen room.new) (out.now ∷ []) }
    ensures ends { Passes library.now out.now
        (outcome R.seen R.Out.written R.Out.faults room.old room.new console.old console.new result) }
{
    let limits = Limits::of(room.is_large());
    match prepare(alloc, limits, room, library) {
        Ok(ready) => {
            let end = deliver_export(alloc, room, console, out, &ready);
            // its memory is given back by the end of the process, which comes now
            mem::forget(ready);
            end
        }
        Err(fault) => tell(console, fault),
    }
}
