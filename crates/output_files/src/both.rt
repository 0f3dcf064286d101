//! Two outputs of a command.
ghost use Rattle.std.specs.Prelude.{◌≡◌, ◌≢◌, [], ◌∷◌, true, None, OnOk, IfErr};
ghost use Rattle.outside.specs.Room.{SameBut};
ghost use Rattle.output_files.specs.Outputs.{AreWritten, AreStopped};

use crate::document::{Document, write_document};
use console_lines::Unwritten;
use outside::Room;

/// Writes two documents into the files of these names, the second only once the first is whole. Neither takes memory then.
#[tactic(auto, using(crate::proofs::Pairs::both_apart, crate::proofs::Pairs::first_apart))]
pub fn write_in_turn<R: Room, A: Document, B: Document>(
    room: &mut R,
    out: &str,
    first: A,
    side: &str,
    second: B,
) -> Result<(), Unwritten>
    requires free { (R.seen room.old).open_as out.now ≡ None }
    requires side_free { (R.seen room.old).open_as side.now ≡ None }
    requires differ { out.now ≢ side.now }
    requires ready { A.takes_memory first → ⊥ }
    requires side_ready { B.takes_memory second → ⊥ }
    ensures apart { SameBut (R.seen room.old) (R.seen room.new) (out.now ∷ side.now ∷ []) }
    ensures closed { (R.seen room.new).open_as out.now ≡ None }
    ensures side_closed { (R.seen room.new).open_as side.now ≡ None }
    ensures written { OnOk result ((R.seen room.old).tells ≡ true →
        AreWritten out.now side.now (A.due first) (B.due second) (R.seen room.new)) }
    ensures stopped { IfErr result (AreStopped (out.now ∷ []) out.now side.now (A.due first) (B.due second) (R.seen room.old) (R.seen room.new)) }
{
    if write_document(room, out, first).is_err() {
        return Err(Unwritten::Out);
    }
    if write_document(room, side, second).is_err() {
        return Err(Unwritten::Side);
    }
    Ok(())
}
