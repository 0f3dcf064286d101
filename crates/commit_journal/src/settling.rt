//! A log is brought into order.
ghost use Rattle.std.specs.Prelude.{◌≡◌, ℕ, ◌+◌, ◌<◌, ◌≤◌, List, take, Some, OnOk};
ghost use Rattle.std.specs.Option.{option_map};
ghost use Rattle.outside.specs.Disk.{OnlyContent, TornCut};
ghost use Rattle.outside.specs.Fault.{HasCause};
ghost use Rattle.commit_journal.specs.declared.frame.Frame.{Frame};
ghost use Rattle.commit_journal.specs.Journal.{Steps, StaysShort, Continues, Keeps, LeavesLog, IsDurableLog, IsRecovered};
ghost use Rattle.commit_journal.specs.Reading.{IsReadAt, IsReadFrom};

use crate::calls;
use crate::format::{BLANK_LENGTH, EMPTY_LOG};
use outside::{Disk, Failed};

/// Writes an empty log over a blank one, the header and its gate in one write.
fn write_empty<D: Disk>(disk: &mut D) -> Result<(), Failed>
    ensures content { OnOk result ((D.seen disk.new).content ≡ option_map (λ _. EMPTY_LOG) (D.seen disk.old).content) }
    ensures len { OnOk result ((D.seen disk.new).len ≡ BLANK_LENGTH) }
    ensures durable { OnOk result (OnlyContent (D.seen disk.new)) }
    ensures crash { Steps StaysShort (D.seen disk.old) (D.seen disk.new) }
    ensures cause { HasCause (D.seen disk.old).faults (D.seen disk.new).faults result }
{
    disk.cut(0)?;
    calls::write_synced(disk, 0, &EMPTY_LOG)
}

/// Cuts off what stands from that place on, where anything does.
fn cut_behind<D: Disk>(disk: &mut D, end: u64) -> Result<(), Failed>
    requires within { end ≤ (D.seen disk.old).len }
    requires only { OnlyContent (D.seen disk.old) }
    ensures content { OnOk result ((D.seen disk.new).content ≡ option_map (take end) (D.seen disk.old).content) }
    ensures len { OnOk result ((D.seen disk.new).len ≡ end) }
    ensures durable { OnOk result (OnlyContent (D.seen disk.new)) }
    ensures crash { Steps (TornCut end) (D.seen disk.old) (D.seen disk.new) }
    ensures cause { HasCause (D.seen disk.old).faults (D.seen disk.new).faults result }
{
    if end < disk.len() {
        return calls::cut_synced(disk, end);
    }
    Ok(())
}

/// Brings a log into order whose first closed gate is at that place: a blank one is written anew, and of a longer one what stands behind
/// that gate is cut off.
pub fn bring_into_order<D: Disk>(disk: &mut D, place: u64) -> Result<(), Failed>
    requires only { OnlyContent (D.seen disk.old) }
    requires within { BLANK_LENGTH < (D.seen disk.old).len → place < (D.seen disk.old).len }
    ensures recovered { OnOk result ((frames : List Frame) (version : ℕ) → IsReadFrom frames place version (D.seen disk.old)
        → IsRecovered frames place version (D.seen disk.old) (D.seen disk.new)) }
    ensures settled { OnOk result ((version : ℕ) → IsReadAt place version (D.seen disk.old) → IsDurableLog place version (D.seen disk.new)) }
    ensures crash { (frames : List Frame) (version : ℕ) → IsReadFrom frames place version (D.seen disk.old)
        → (log : List ℕ) → (D.seen disk.old).content ≡ Some log → Keeps (LeavesLog log) (D.seen disk.old) (D.seen disk.new) }
    ensures continues { Continues (D.seen disk.old) (D.seen disk.new) }
    ensures cause { HasCause (D.seen disk.old).faults (D.seen disk.new).faults result }
{
    if disk.len() <= BLANK_LENGTH {
        return write_empty(disk);
    }
    cut_behind(disk, place + 1)
}
