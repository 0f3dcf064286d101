ghost use Rattle.std.specs.Prelude.{◌≡◌, ◌≤◌, ℕ, List, [], true, None, IsSomeAnd, IfOk, IsErrOf};
ghost use Rattle.outside.specs.Fault.{Rose};
ghost use Rattle.outside.specs.Room.{SameBut};
ghost use Rattle.console_lines.specs.Ends.{outcome};
ghost use Rattle.journal_verification.specs.Contents.{IsVerified};
ghost use Rattle.entry_history.specs.Frames.{IsNoJournal};
ghost use Rattle.journal_verification.specs.Verifying.{Verifies};

use crate::fault::VerifyFault;
use crate::looking::look_file;
use crate::text::verified_text;
use console_lines::{End, Fault, tell, tell_result};
use marc_types::NoMemory;
use outside::Room;
use std::alloc::Global;

/// The command `verify`: tells what a journal has, and writes nothing.
pub fn verify<R: Room>(alloc: Global, room: &mut R, console: &mut R::Out, journal: &str) -> End
    requires closed { (name : List ℕ) → (R.seen room.old).open_as name ≡ None }
    ensures closed { (name : List ℕ) → (R.seen room.new).open_as name ≡ None }
    ensures apart { SameBut (R.seen room.old) (R.seen room.new) [] }
    ensures ends { Verifies journal.now
        (outcome R.seen R.Out.written R.Out.faults room.old room.new console.old console.new result) }
{
    let looked = match look_file(alloc, room, journal, 0) {
        Ok(looked) => looked,
        Err(VerifyFault::InputFault) => return tell(console, Fault::Input),
        Err(VerifyFault::NotAJournal(place)) => return tell(console, Fault::NotAJournal(place)),
        Err(VerifyFault::NoMemory) => return tell(console, Fault::Memory),
    };
    match verified_text(alloc, &looked.verified) {
        Ok(text) => tell_result(console, text.as_str(), false),
        Err(NoMemory) => tell(console, Fault::Memory),
    }
}
