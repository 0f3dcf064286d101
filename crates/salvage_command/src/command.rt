ghost use Rattle.std.specs.Prelude.{◌≡◌, ◌≢◌, ℕ, List, [], ◌∷◌, None};
ghost use Rattle.console_lines.specs.Ends.{outcome};
ghost use Rattle.outside.specs.Room.{SameBut};
ghost use Rattle.salvage_command.specs.Salvages.{Salvages};

use crate::looking::findings_of;
use console_lines::{End, tell, tell_result};
use journal_files::limits_of;
use migrate_command::bring_history;
use outside::Room;
use std::alloc::Global;

/// The command `salvage`: brings what is sound of the journal `journal`, which is only read, into the journal `into`, and tells how many
/// entries that are, each damage, and how many bytes are left out. It tells why it doesn't, and can be called again after any stop.
pub fn salvage_journal<R: Room>(
    alloc: Global,
    room: &mut R,
    console: &mut R::Out,
    journal: &str,
    into: &str,
) -> End
    requires closed { (name : List ℕ) → (R.seen room.old).open_as name ≡ None }
    requires differ { journal.now ≢ into.now }
    ensures closed { (name : List ℕ) → (R.seen room.new).open_as name ≡ None }
    ensures apart { SameBut (R.seen room.old) (R.seen room.new) (into.now ∷ []) }
    ensures ends { Salvages journal.now into.now
        (outcome R.seen R.Out.written R.Out.faults room.old room.new console.old console.new result) }
{
    let limits = limits_of(room);
    let found = match findings_of(alloc, limits, room, journal) {
        Ok(found) => found,
        Err(fault) => return tell(console, fault),
    };
    match bring_history(alloc, room, found.entries, into) {
        Ok(()) => tell_result(console, found.text.as_str(), false),
        Err(fault) => tell(console, fault),
    }
}
