//! The command `join`.
ghost use Rattle.std.specs.Prelude.{◌≡◌, ◌≢◌, ◌⊎◌, ◌<◌, ◌≤◌, ℕ, List, [], ◌∷◌, length, All, None, true, IfOk, IfErr, OnOk, IsErrOf};
ghost use Rattle.outside.specs.Fault.{Rose, count_sum};
ghost use Rattle.outside.specs.Room.{SameBut};
ghost use Rattle.console_lines.specs.Ends.{outcome};
ghost use Rattle.parts_commands.specs.Joining.{AreJoinedBehind, AreWritten, IsJoinedInto, IsOpened, IsOtherPart, IsPartWritten, IsStoppedAt, Joins, LeavesOut, StopsJoining};
ghost use Rattle.parts_commands.specs.Taking.{HasOutputCause};

use crate::appending::{Buffers, append_part, write_authorities};
use crate::stop::Stop;
use console_lines::{End, Fault, Unwritten, tell, tell_difference};
use marc_stream::Pieces;
use marc_types::{NoMemory, Text};
use outside::{Failed, Room};
use std::alloc::Global;

/// Why a join ended before its end.
#[derive(Clone, Copy, Debug)]
pub(crate) enum Stopped<'a> {
    /// An export is unlike the others, at that byte of the file of that name.
    Unlike { place: u64, name: &'a str },
    Input,
    NoMemory,
    /// OUT could not be written.
    Output,
}

fn stopped_at(why: Stop, name: &str) -> Stopped<'_>
    ensures { IsStoppedAt why name.now result }
{
    match why {
        Stop::Unlike(place) => Stopped::Unlike { place, name },
        Stop::Input => Stopped::Input,
        Stop::NoMemory => Stopped::NoMemory,
        Stop::Output => Stopped::Output,
    }
}

/// Opens an export to be read piece by piece.
fn open_pieces<R: Room>(alloc: Global, room: &mut R, name: &str) -> Result<Pieces<R::In>, Stop>
    requires { (R.seen room.old).open_as name.now ≡ None }
    ensures stays { SameBut (R.seen room.old) (R.seen room.new) [] }
    ensures opened { IfOk result (IsOpened (R.seen room.old) name.now) }
    ensures like { (place : ℕ) → IsErrOf result (Stop.Unlike place) → ⊥ }
    ensures output { IsErrOf result Stop.Output → ⊥ }
    ensures input { IsErrOf result Stop.Input → Rose ((R.seen room.old).in_faults name.now) ((R.seen room.new).in_faults name.now) }
{
    let source = match room.open_in(name) {
        Ok(source) => source,
        Err(Failed) => return Err(Stop::Input),
    };
    match Pieces::new(alloc, source) {
        Ok(pieces) => Ok(pieces),
        Err((source, NoMemory)) => {
            room.close_in(name, source);
            Err(Stop::NoMemory)
        }
    }
}

/// Closes an export.
fn close_pieces<R: Room>(room: &mut R, name: &str, pieces: Pieces<R::In>)
    ensures stays { SameBut (R.seen room.old) (R.seen room.new) [] }
    ensures counted { (R.seen room.new).in_faults name.now ≡ count_sum ((R.seen room.old).in_faults name.now) pieces.faults }
{
    room.close_in(name, pieces.finish());
}

/// Writes the authorities of the first export.
fn write_first<R: Room>(
    alloc: Global,
    room: &mut R,
    first: &str,
    piece: &mut Vec<u8>,
    out: &mut R::Out,
) -> Result<(), Stop>
    requires { (R.seen room.old).open_as first.now ≡ None }
    ensures stays { SameBut (R.seen room.old) (R.seen room.new) [] }
    ensures wrote { OnOk result ((R.seen room.old).tells ≡ true →
        AreWritten (R.seen room.old).file first.now (R.Out.written out.old) (R.Out.written out.new)) }
    ensures like { (place : ℕ) → IsErrOf result (Stop.Unlike place) → ⊥ }
    ensures input { IsErrOf result Stop.Input → Rose ((R.seen room.old).in_faults first.now) ((R.seen room.new).in_faults first.now) }
    ensures output { HasOutputCause (R.Out.faults out.old) (R.Out.faults out.new) result }
{
    let mut pieces = open_pieces(alloc, room, first)?;
    let written = write_authorities(&mut pieces, piece, out);
    close_pieces(room, first, pieces);
    written
}

/// Writes what one export has behind the authorities, which are compared with those of the first: that is read again beside it, so that no
/// authorities are kept.
fn write_part<R: Room>(
    alloc: Global,
    room: &mut R,
    first: &str,
    name: &str,
    buffers: &mut Buffers,
    out: &mut R::Out,
) -> Result<(), Stop>
    requires first { (R.seen room.old).open_as first.now ≡ None }
    requires export { (R.seen room.old).open_as name.now ≡ None }
    ensures stays { SameBut (R.seen room.old) (R.seen room.new) [] }
    ensures wrote { OnOk result ((R.seen room.old).tells ≡ true → IsPartWritten (R.seen room.old).file first.now name.now
        buffers.old.last.items buffers.new.last.items (R.Out.written out.old) (R.Out.written out.new)) }
    ensures other { (place : ℕ) → IsErrOf result (Stop.Unlike place) → (R.seen room.old).tells ≡ true →
        IsOtherPart (R.seen room.old).file first.now name.now buffers.old.last.items place }
    ensures input { IsErrOf result Stop.Input → Rose ((R.seen room.old).in_faults first.now) ((R.seen room.new).in_faults first.now)
        ⊎ Rose ((R.seen room.old).in_faults name.now) ((R.seen room.new).in_faults name.now) }
    ensures output { HasOutputCause (R.Out.faults out.old) (R.Out.faults out.new) result }
{
    let mut beside = open_pieces(alloc, room, first)?;
    let mut pieces = match open_pieces(alloc, room, name) {
        Ok(pieces) => pieces,
        Err(why) => {
            close_pieces(room, first, beside);
            return Err(why);
        }
    };
    let written = append_part(alloc, &mut beside, &mut pieces, buffers, out);
    close_pieces(room, name, pieces);
    close_pieces(room, first, beside);
    written
}

/// Writes what is joined of the exports.
fn write_parts<'a, R: Room>(
    alloc: Global,
    room: &mut R,
    exports: &'a [Text],
    out: &mut R::Out,
) -> Result<(), Stopped<'a>>
    requires some { 0 < length exports.now }
    requires free { All (λ name. (R.seen room.old).open_as name ≡ None) exports.now }
    ensures stays { SameBut (R.seen room.old) (R.seen room.new) [] }
    ensures joined { OnOk result ((R.seen room.old).tells ≡ true →
        AreJoinedBehind (R.seen room.old).file exports.now (R.Out.written out.old) (R.Out.written out.new)) }
    ensures stopped { IfErr result
        (StopsJoining (R.seen room.old) (R.seen room.new) exports.now (R.Out.faults out.old) (R.Out.faults out.new)) }
    ensures later { R.Out.faults out.old ≤ R.Out.faults out.new }
{
    let first = exports[0].as_str();
    let mut buffers = Buffers::new(alloc);
    if let Err(why) = write_first(alloc, room, first, &mut buffers.piece, out) {
        return Err(stopped_at(why, first));
    }
    for name in exports {
        if let Err(why) = write_part(alloc, room, first, name.as_str(), &mut buffers, out) {
            return Err(stopped_at(why, name.as_str()));
        }
    }
    Ok(())
}

/// Writes what is joined of the exports into the file `out`, whole or not at all.
fn join_into<'a, R: Room>(
    alloc: Global,
    room: &mut R,
    out: &str,
    exports: &'a [Text],
) -> Result<(), Stopped<'a>>
    requires some { 0 < length exports.now }
    requires apart { All (λ name. name ≢ out.now) exports.now }
    requires closed { (name : List ℕ) → (R.seen room.old).open_as name ≡ None }
    ensures closed { (R.seen room.new).open_as out.now ≡ None }
    ensures apart { SameBut (R.seen room.old) (R.seen room.new) (out.now ∷ []) }
    ensures put { OnOk result ((R.seen room.old).tells ≡ true → IsJoinedInto exports.now out.now (R.seen room.old) (R.seen room.new)) }
    ensures stopped { IfErr result (StopsJoining (R.seen room.old) (R.seen room.new) exports.now
        ((R.seen room.old).out_faults out.now) ((R.seen room.new).out_faults out.now)) }
    ensures left { IfErr result (LeavesOut (R.seen room.old) (R.seen room.new) exports.now out.now) }
{
    let mut written = match room.open_out(out) {
        Ok(written) => written,
        Err(Failed) => return Err(Stopped::Output),
    };
    if let Err(why) = write_parts(alloc, room, exports, &mut written) {
        room.give_up_out(out, written);
        return Err(why);
    }
    match room.close_out(out, written) {
        Ok(()) => Ok(()),
        Err(Failed) => Err(Stopped::Output),
    }
}

/// The command `join`: writes the authorities of the first export and then the bibliographic records of each into the file `out`. It tells an
/// input's fault, want of memory, and which export is unlike the others.
pub fn join_exports<R: Room>(
    alloc: Global,
    room: &mut R,
    console: &mut R::Out,
    out: &str,
    exports: &[Text],
) -> End
    requires closed { (name : List ℕ) → (R.seen room.old).open_as name ≡ None }
    requires some { 0 < length exports.now }
    requires apart { All (λ name. name ≢ out.now) exports.now }
    ensures closed { (name : List ℕ) → (R.seen room.new).open_as name ≡ None }
    ensures apart { SameBut (R.seen room.old) (R.seen room.new) (out.now ∷ []) }
    ensures ends { Joins out.now exports.now
        (outcome R.seen R.Out.written R.Out.faults room.old room.new console.old console.new result) }
{
    match join_into(alloc, room, out, exports) {
        Ok(()) => End::Done,
        Err(Stopped::Output) => End::Unwritten(Unwritten::Out),
        Err(Stopped::Input) => tell(console, Fault::Input),
        Err(Stopped::NoMemory) => tell(console, Fault::Memory),
        Err(Stopped::Unlike { place, name }) => tell_difference(console, place, name),
    }
}
