ghost use Rattle.std.specs.Prelude.{◌≡◌, ◌≢◌, ℕ, List, [], ◌∷◌, None};
ghost use Rattle.console_lines.specs.Ends.{outcome};
ghost use Rattle.outside.specs.Room.{SameBut};
ghost use Rattle.migrate_command.specs.Migrates.{Migrates};

use crate::bringing::bring_over;
use console_lines::{End, Unwritten, tell, write_numbered};
use outside::Room;
use std::alloc::Global;

/// The command `migrate`: brings the history of the journal `from`, of version 1, into the journal `into`, and tells how many entries it
/// has. It tells why it doesn't, and can be called again after any stop.
pub fn migrate_journal<R: Room>(
    alloc: Global,
    room: &mut R,
    console: &mut R::Out,
    from: &str,
    into: &str,
) -> End
    requires closed { (name : List ℕ) → (R.seen room.old).open_as name ≡ None }
    requires differ { from.now ≢ into.now }
    ensures closed { (name : List ℕ) → (R.seen room.new).open_as name ≡ None }
    ensures apart { SameBut (R.seen room.old) (R.seen room.new) (from.now ∷ into.now ∷ []) }
    ensures ends { Migrates from.now into.now
        (outcome R.seen R.Out.written R.Out.faults room.old room.new console.old console.new result) }
{
    match bring_over(alloc, room, from, into) {
        Ok(count) => match write_numbered(console, b"migrated ", count) {
            Ok(()) => End::Done,
            Err(_) => End::Unwritten(Unwritten::Console),
        },
        Err(fault) => tell(console, fault),
    }
}
