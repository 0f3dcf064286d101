//! A room in which no name is open: what is put into it, and what is let fail.
ghost use Rattle.std.specs.Prelude.{◌≡◌, ℕ, List, None, IfOk};
ghost use Rattle.command_words.specs.Command.{is_large};
ghost use Rattle.outside_mem.specs.Room.{room_view};

use command_words::{Words, is_large};
use outside::NoMemory;
use outside_mem::MemRoom;
use std::alloc::Global;

/// An empty room.
pub fn empty_room(alloc: Global) -> MemRoom
    ensures { (name : List ℕ) → (room_view result).open_as name ≡ None }
{
    MemRoom::new(alloc)
}

/// Puts a file of these bytes into a room.
#[tactic(auto, using(crate::proofs::Closed::still_closed))]
pub fn with_file(room: MemRoom, name: &str, bytes: Vec<u8>) -> Result<MemRoom, NoMemory>
    requires { (name : List ℕ) → (room_view room).open_as name ≡ None }
    ensures { IfOk result (λ room. (name : List ℕ) → (room_view room).open_as name ≡ None) }
{
    let mut room = room;
    room.put(name, bytes)?;
    Ok(room)
}

/// Lets the call with that number fail on each object that is opened by the name.
#[tactic(auto, using(crate::proofs::Closed::still_closed))]
pub fn with_fault(room: MemRoom, name: &str, call: u64) -> Result<MemRoom, NoMemory>
    requires { (name : List ℕ) → (room_view room).open_as name ≡ None }
    ensures { IfOk result (λ room. (name : List ℕ) → (room_view room).open_as name ≡ None) }
{
    let mut room = room;
    room.fail(name, call)?;
    Ok(room)
}

/// Lets each opening by the name fail.
#[tactic(auto, using(crate::proofs::Closed::still_closed))]
pub fn with_shut(room: MemRoom, name: &str) -> Result<MemRoom, NoMemory>
    requires { (name : List ℕ) → (room_view room).open_as name ≡ None }
    ensures { IfOk result (λ room. (name : List ℕ) → (room_view room).open_as name ≡ None) }
{
    let mut room = room;
    room.fail_opening(name)?;
    Ok(room)
}

/// Gives a room the limits that the command of some words takes, those of a large catalogue or not.
pub fn take_limits(room: &mut MemRoom, words: &Words)
    requires { (name : List ℕ) → (room_view room.old).open_as name ≡ None }
    ensures closed { (name : List ℕ) → (room_view room.new).open_as name ≡ None }
    ensures large { (room_view room.new).is_large ≡ is_large words.now }
{
    room.set_large(is_large(words));
}
