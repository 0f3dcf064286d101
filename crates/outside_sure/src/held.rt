ghost use Rattle.std.specs.Prelude.{◌≡◌, ◌+◌, ◌≤◌, [], ◌++◌, length, take, vec_capacity, IfOk};
ghost use Rattle.outside.specs.Disk.{patch};

use outside::NoMemory;
use std::alloc::Global;

/// At most `ROOM` bytes. Their memory is taken when it is made, and no change takes more.
#[derive(Debug, Drop)]
pub struct Held<const ROOM: usize> {
    buffer: Vec<u8>,
    ghost within: { length buffer.items ≤ ROOM },
    ghost taken: { ROOM ≤ vec_capacity buffer },
}

// Writes over what stands there.
#[tactic(auto, using(crate::proofs::Helds::over_len))]
fn write_over(buffer: &mut Vec<u8>, at: usize, bytes: &[u8])
    requires { at + length bytes.now ≤ length buffer.old.items }
    ensures items { buffer.new.items ≡ patch at bytes.now buffer.old.items }
    ensures len { length buffer.new.items ≡ length buffer.old.items }
    ensures capacity { vec_capacity buffer.new ≡ vec_capacity buffer.old }
{
    buffer[at..at + bytes.len()].copy_from_slice(bytes);
}

// Adds the bytes at the end; there is room, so that it takes no memory and doesn't fail.
fn append(buffer: &mut Vec<u8>, bytes: &[u8])
    requires { length buffer.old.items + length bytes.now ≤ vec_capacity buffer.old }
    ensures items { buffer.new.items ≡ buffer.old.items ++ bytes.now }
    ensures capacity { vec_capacity buffer.old ≤ vec_capacity buffer.new }
{
    let _ = buffer.extend_from_slice(bytes);
}

// Writes over what stands there, and the rest past the end.
#[tactic(auto, using(crate::proofs::Helds::over_and_past))]
fn write_past(buffer: &mut Vec<u8>, at: usize, bytes: &[u8])
    requires within { at ≤ length buffer.old.items }
    requires room { at + length bytes.now ≤ vec_capacity buffer.old }
    ensures items { buffer.new.items ≡ patch at bytes.now buffer.old.items }
    ensures capacity { vec_capacity buffer.old ≤ vec_capacity buffer.new }
{
    let (over, past) = bytes.split_at(bytes.len().min(buffer.len() - at));
    write_over(buffer, at, over);
    append(buffer, past);
}

impl<const ROOM: usize> Held<ROOM> {
    /// No bytes.
    pub fn new(alloc: Global) -> Result<Self, NoMemory>
        ensures { IfOk result (λ held. held.buffer.items ≡ []) }
    {
        Ok(Held {
            buffer: Vec::with_capacity(alloc, ROOM)?,
        })
    }

    /// These bytes.
    pub fn of_bytes(alloc: Global, bytes: &[u8]) -> Result<Self, NoMemory>
        requires { length bytes.now ≤ ROOM }
        ensures { IfOk result (λ held. held.buffer.items ≡ bytes.now) }
    {
        let mut held = Held::new(alloc)?;
        held.write_at(0, bytes);
        Ok(held)
    }

    /// The bytes that are held.
    pub fn bytes(&self) -> &[u8]
        ensures { result.now ≡ self.now.buffer.items }
    {
        self.buffer.as_slice()
    }

    /// How many bytes are held.
    pub fn len(&self) -> usize
        ensures { result ≡ length self.now.buffer.items }
    {
        self.buffer.len()
    }

    /// Writes the bytes over what is there and past the end, as far as there is room.
    #[tactic(auto, using(crate::proofs::Helds::fitting, crate::proofs::Helds::fits))]
    pub fn write_at(&mut self, at: usize, bytes: &[u8])
        requires { at ≤ length self.old.buffer.items }
        ensures { self.new.buffer.items ≡ take ROOM (patch at bytes.now self.old.buffer.items) }
    {
        write_past(&mut self.buffer, at, &bytes[..bytes.len().min(ROOM - at)]);
    }

    /// Cuts the bytes from there on off.
    pub fn cut(&mut self, len: usize)
        ensures { self.new.buffer.items ≡ take len self.old.buffer.items }
    {
        self.buffer.truncate(len);
    }

    /// No bytes, in the same memory.
    pub fn emptied(mut self) -> Self
        ensures { result.buffer.items ≡ [] }
    {
        self.cut(0);
        self
    }
}
