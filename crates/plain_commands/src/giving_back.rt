//! The pieces of a file that are refused, as they stand in it.
ghost use Rattle.std.specs.Prelude.{◌≡◌, ℕ, List, None, IsTrue, IfOk, ◌∷◌, []};
ghost use Rattle.std.specs.Io.BufRead.{take_through};
ghost use Rattle.marc_types.specs.Valid.{is_code};
ghost use Rattle.marc_stream.specs.Pieces.{record_terminator};
ghost use Rattle.outside.specs.Room.{SameBut};
ghost use Rattle.console_lines.specs.Ends.{outcome};
ghost use Rattle.plain_commands.specs.GivingBack.{piece_at, refused_pieces, DeliversPieces, GivesBack};
ghost use Rattle.plain_commands.specs.Passing.{TellsMemoryAlone, EndsDelivering};

use crate::passing::deliver;
use crate::ready::{Ready, prepare_bytes};
use command_words::Library;
use console_lines::{End, Fault, tell};
use file_entries::RefusedItem;
use marc_types::{Limits, NoMemory};
use memchr::memchr;
use memory_files::{ReadFault, read_file};
use outside::Room;
use std::alloc::Global;
use std::mem;

const RECORD_TERMINATOR: u8 = 0x1D;

/// The bytes through the first record terminator, or all where there is none.
fn through_terminator(bytes: &[u8]) -> &[u8]
    ensures { result.now ≡ take_through record_terminator bytes.now }
{
    match memchr(RECORD_TERMINATOR, bytes) {
        Some(at) => &bytes[..at + 1],
        None => bytes,
    }
}

/// What stands at a place of a file through the next record terminator, or to the end.
fn piece_at(bytes: &[u8], offset: u64) -> &[u8]
    ensures { result.now ≡ piece_at bytes.now offset }
{
    let from = bytes.len().min(offset as usize);
    through_terminator(&bytes[from..])
}

/// The pieces at the places of refused items, one behind the other.
fn pieces_of(alloc: Global, bytes: &[u8], refused: &[RefusedItem]) -> Result<Vec<u8>, NoMemory>
    ensures { IfOk result (λ pieces. pieces.items ≡ refused_pieces bytes.now refused.now) }
{
    let mut pieces = Vec::new(alloc);
    for item in refused {
        pieces.extend_from_slice(piece_at(bytes, item.offset))?;
    }
    Ok(pieces)
}

/// Writes the refused pieces of a file with these bytes into the file `out`, and then tells the console.
#[tactic(auto, using(outside::proofs::Rooms::same_but_itself))]
fn deliver_pieces<R: Room>(
    alloc: Global,
    room: &mut R,
    console: &mut R::Out,
    out: &str,
    bytes: &[u8],
    ready: &Ready,
) -> End
    requires free { (R.seen room.old).open_as out.now ≡ None }
    ensures apart { SameBut (R.seen room.old) (R.seen room.new) (out.now ∷ []) }
    ensures closed { (R.seen room.new).open_as out.now ≡ None }

    // Want of memory alone is told, and then OUT isn't begun.
    ensures fault { TellsMemoryAlone (outcome R.seen R.Out.written R.Out.faults room.old room.new console.old console.new result) }

    // Which of the two could not be written.
    ensures unwritten { EndsDelivering out.now (outcome R.seen R.Out.written R.Out.faults room.old room.new console.old console.new result) }

    // What is there then.
    ensures delivered { DeliversPieces bytes.now ready.now out.now
        (outcome R.seen R.Out.written R.Out.faults room.old room.new console.old console.new result) }
{
    match pieces_of(alloc, bytes, ready.loaded.refused()) {
        Ok(pieces) => deliver(room, console, out, ready, pieces),
        Err(NoMemory) => tell(console, Fault::Memory),
    }
}

/// The command `refused`: takes one file as `pass` does, and writes its refused pieces, as they stand in it, into the file `out`. It tells
/// an input's fault, a file that has more than the room's limits allow, and want of memory.
#[tactic(auto, using(outside::proofs::Closings::closed_one, marc_types::proofs::WithinLimits::limits_within))]
pub fn give_back<R: Room>(
    alloc: Global,
    room: &mut R,
    console: &mut R::Out,
    library: &Library,
    out: &str,
) -> End
    requires closed { (name : List ℕ) → (R.seen room.old).open_as name ≡ None }
    requires proper { IsTrue (is_code library.now.code) }
    ensures closed { (name : List ℕ) → (R.seen room.new).open_as name ≡ None }
    ensures apart { SameBut (R.seen room.old) (R.seen room.new) (out.now ∷ []) }
    ensures ends { GivesBack library.now out.now
        (outcome R.seen R.Out.written R.Out.faults room.old room.new console.old console.new result) }
{
    let limits = Limits::of(room.is_large());
    let bytes = match read_file(alloc, room, library.file.as_str()) {
        Ok(bytes) => bytes,
        Err(ReadFault::InputFault) => return tell(console, Fault::Input),
        Err(ReadFault::NoMemory) => return tell(console, Fault::Memory),
    };
    match prepare_bytes(alloc, limits, library, bytes.as_slice()) {
        Ok(ready) => {
            let end = deliver_pieces(alloc, room, console, out, bytes.as_slice(), &ready);
            // its memory is given back by the end of the process, which comes now
            mem::forget(ready);
            end
        }
        Err(fault) => tell(console, fault),
    }
}
