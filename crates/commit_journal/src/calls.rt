ghost use Rattle.std.specs.Prelude.{◌≡◌, ℕ, ◌+◌, ◌<◌, ◌≤◌, List, length, take, drop, max, Some, OnOk};
ghost use Rattle.std.specs.Option.{option_map};
ghost use Rattle.outside.specs.Disk.{longest_write, patch, Torn, TornCut, OnlyContent, Unchanged};
ghost use Rattle.outside.specs.Fault.{HasCause};
ghost use Rattle.commit_journal.specs.Journal.{Steps};

use outside::{Disk, Failed};

/// Fills the buffer with the bytes from `at` on, all of which stand on the disk.
pub fn read_exactly<D: Disk>(disk: &mut D, at: u64, buffer: &mut [u8]) -> Result<(), Failed>
    requires { at + length buffer.old ≤ (D.seen disk.old).len }
    ensures bytes { OnOk result ((b : List ℕ) → (D.seen disk.old).content ≡ Some b
        → buffer.new ≡ take (length buffer.old) (drop at b)) }
    ensures unchanged { Unchanged (D.seen disk.old) (D.seen disk.new) }
    ensures cause { HasCause (D.seen disk.old).faults (D.seen disk.new).faults result }
{
    let mut filled = 0;
    while filled < buffer.len() {
        let count = disk.read_at(at + filled as u64, &mut buffer[filled..])?;
        filled += count;
    }
    Ok(())
}

/// Writes the bytes, and syncs.
pub fn write_synced<D: Disk>(disk: &mut D, at: u64, bytes: &[u8]) -> Result<(), Failed>
    requires within { at ≤ (D.seen disk.old).len }
    requires at_most { length bytes.now ≤ longest_write }
    ensures content { OnOk result ((D.seen disk.new).content ≡ option_map (patch at bytes.now) (D.seen disk.old).content) }
    ensures len { OnOk result ((D.seen disk.new).len ≡ max (D.seen disk.old).len (at + length bytes.now)) }
    ensures durable { OnOk result (OnlyContent (D.seen disk.new)) }
    ensures crash { Steps (Torn at (length bytes.now)) (D.seen disk.old) (D.seen disk.new) }
    ensures cause { HasCause (D.seen disk.old).faults (D.seen disk.new).faults result }
{
    disk.write_at(at, bytes)?;
    disk.sync()
}

/// Cuts the bytes from `len` on off, and syncs.
pub fn cut_synced<D: Disk>(disk: &mut D, len: u64) -> Result<(), Failed>
    requires { len ≤ (D.seen disk.old).len }
    ensures content { OnOk result ((D.seen disk.new).content ≡ option_map (take len) (D.seen disk.old).content) }
    ensures len { OnOk result ((D.seen disk.new).len ≡ len) }
    ensures durable { OnOk result (OnlyContent (D.seen disk.new)) }
    ensures crash { Steps (TornCut len) (D.seen disk.old) (D.seen disk.new) }
    ensures cause { HasCause (D.seen disk.old).faults (D.seen disk.new).faults result }
{
    disk.cut(len)?;
    disk.sync()
}
