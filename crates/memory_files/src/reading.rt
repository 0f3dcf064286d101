//! A file's bytes, read whole.
ghost use Rattle.std.specs.Prelude.{◌≡◌, ◌≤◌, ℕ, List, [], true, Some, None, IfOk, IsErrOf};
ghost use Rattle.outside.specs.Fault.{Rose};
ghost use Rattle.outside.specs.Room.{SameBut};
ghost use Rattle.memory_files.specs.Reading.{HasReadCause};

use outside::{Failed, Room, Source};
use std::alloc::{AllocError, Global};

/// The most bytes that one read asks for.
const MOST_AT_ONCE: usize = 8192;

/// Why a file's bytes aren't had.
#[derive(Clone, Copy, Debug, PartialEq, Eq)]
pub enum ReadFault {
    /// The input failed.
    InputFault,
    NoMemory,
}

impl From<Failed> for ReadFault {
    ghost use Rattle.memory_files.specs.declared.reading.ReadFault.{ReadFault};

    ghost from_gives = { λ _ fault. fault ≡ ReadFault.InputFault };

    fn from(_failed: Failed) -> ReadFault {
        ReadFault::InputFault
    }
}

impl From<AllocError> for ReadFault {
    ghost use Rattle.memory_files.specs.declared.reading.ReadFault.{ReadFault};

    ghost from_gives = { λ _ fault. fault ≡ ReadFault.NoMemory };

    fn from(_error: AllocError) -> ReadFault {
        ReadFault::NoMemory
    }
}

/// Reads an input to its end.
#[tactic(auto, using(outside::proofs::Fronts::consumes_told))]
fn read_all<S: Source>(alloc: Global, source: &mut S) -> Result<Vec<u8>, ReadFault>
    ensures bytes { IfOk result (λ bytes. (all : List ℕ) → S.left source.old ≡ Some all → bytes.items ≡ all) }
    ensures cause { HasReadCause (S.faults source.old) (S.faults source.new) result }
{
    let mut bytes = Vec::new(alloc);
    let mut chunk = [0; MOST_AT_ONCE];
    'reads: loop {
        let count = source.read(&mut chunk)?;
        if count == 0 {
            return Ok(bytes);
        }
        bytes.extend_from_slice(&chunk[..count])?;
    }
}

/// Reads the file of that name as an input, and closes it again.
pub fn read_file<R: Room>(alloc: Global, room: &mut R, name: &str) -> Result<Vec<u8>, ReadFault>
    requires { (R.seen room.old).open_as name.now ≡ None }
    ensures stays { SameBut (R.seen room.old) (R.seen room.new) [] }
    ensures bytes { IfOk result (λ bytes. (R.seen room.old).tells ≡ true → (R.seen room.old).file name.now ≡ Some bytes.items) }
    ensures cause { IsErrOf result ReadFault.InputFault → Rose ((R.seen room.old).in_faults name.now) ((R.seen room.new).in_faults name.now) }
{
    let mut source = room.open_in(name)?;
    let bytes = read_all(alloc, &mut source);
    room.close_in(name, source);
    bytes
}
