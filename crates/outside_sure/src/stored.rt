ghost use Rattle.std.specs.Prelude.{◌≡◌, ◌≤◌, length, is_some, is_none, IfSome, IfOk};
ghost use Rattle.std.specs.Option.{option_copied};
ghost use Rattle.outside.specs.Room.{bytes_or_none};
ghost use Rattle.outside_sure.specs.SureKept.{told_stored, stored_sort, memory_of, IsNewStored};

use crate::SureDisk;
use crate::held::Held;
use outside::NoMemory;
use std::alloc::Global;

/// What a drawer has.
#[derive(Debug, Drop)]
pub enum Stored<const ROOM: usize> {
    /// Room for a file, and none yet.
    Blank(Held<ROOM>),
    /// A file, which the drawer was made with or which was put there as an output.
    File(Held<ROOM>),
    /// What was closed as a log.
    Log(SureDisk<ROOM>),
    /// What is open as a log.
    OpenLog,
}

impl<const ROOM: usize> Stored<ROOM> {
    /// A file of these bytes, or room for one; takes its memory here.
    pub fn new(alloc: Global, bytes: Option<&[u8]>) -> Result<Self, NoMemory>
        requires { IfSome (option_copied bytes) (λ b. length b ≤ ROOM) }
        ensures { IfOk result (IsNewStored (option_copied bytes.entry)) }
    {
        Ok(match bytes {
            Some(bytes) => Stored::File(Held::of_bytes(alloc, bytes)?),
            None => Stored::Blank(Held::new(alloc)?),
        })
    }

    /// The bytes of a file that isn't open.
    pub fn bytes(&self) -> Option<&[u8]>
        ensures { option_copied result ≡ told_stored self.now }
    {
        match self {
            Stored::File(held) => Some(held.bytes()),
            Stored::Log(disk) => Some(disk.bytes()),
            Stored::Blank(_) | Stored::OpenLog => None,
        }
    }

    /// The memory of what isn't open, with the file's bytes.
    pub fn into_held(self) -> Option<Held<ROOM>>
        ensures none { is_none result ≡ is_some (stored_sort self.entry) }
        ensures bytes { IfSome result (λ held. held.buffer.items ≡ bytes_or_none (told_stored self.entry)) }
    {
        match self {
            Stored::Blank(held) => Some(held.emptied()),
            Stored::File(held) => Some(held),
            Stored::Log(disk) => Some(disk.into_held()),
            Stored::OpenLog => None,
        }
    }

    /// The memory of what isn't open, with any bytes.
    pub fn into_memory(self) -> Option<Held<ROOM>>
        ensures { result ≡ memory_of self.entry }
    {
        match self {
            Stored::Blank(held) | Stored::File(held) => Some(held),
            Stored::Log(disk) => Some(disk.into_held()),
            Stored::OpenLog => None,
        }
    }
}
