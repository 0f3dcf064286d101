ghost use Rattle.std.specs.Prelude.{◌≡◌, ◌^◌, ◌<◌, ◌≤◌, false, Some};
ghost use Rattle.outside.specs.Fault.{Rose};
ghost use Rattle.loader_workers.specs.Gathering.{HasGathered};

use crate::file_end::FileEnd;
use crate::task::Shared;
use catalogue_lock::Object;
use entry_history::Batch;
use file_entries::{FileEntries, NextEntry, RefusedItem};
use outside::{Gate, Source};
use std::sync::Wait;

/// Gathers the entries of the next turn and lists the refused items on the way, up to the gate's size or until the file ends.
/// `before` counts the entries that were accepted before.
pub fn gather<O: Object, R: Wait, S: Source, G: Gate>(
    rt: &R,
    shared: &Shared<'_, O, G>,
    entries: &mut FileEntries<S>,
    refused: &mut Vec<RefusedItem>,
    loader: u32,
    before: u64,
) -> (Batch, Option<FileEnd>)
    requires going { entries.old.over ≡ false }
    requires few { before < 2 ^ 32 }
    ensures gathers { HasGathered entries.old entries.new refused.old.items refused.new.items result.0 result.1 }
    ensures faults { entries.old.stream.faults ≤ entries.new.stream.faults }
    ensures cause { result.1 ≡ Some FileEnd.ReadFault → Rose entries.old.stream.faults entries.new.stream.faults }
{
    let Shared { alloc, gate, .. } = *shared;
    let size = gate.batch();
    let mut batch = Batch::new(alloc);
    'items: loop {
        let held = batch.len();
        if held >= size {
            return (batch, None);
        }
        let pieces = before + u64::from(held) + refused.len() as u64;
        gate.before(rt, loader, pieces + 1);
        match entries.next(alloc) {
            NextEntry::Entry(item) => match batch.push(alloc, item) {
                Ok(()) => {}
                Err(_) => return (batch, Some(FileEnd::NoMemory)),
            },
            NextEntry::Refused(item) => match refused.push(item) {
                Ok(()) => {}
                Err(_) => return (batch, Some(FileEnd::NoMemory)),
            },
            NextEntry::End => {
                gate.ended(rt, loader, pieces);
                return (batch, Some(FileEnd::Done));
            }
            NextEntry::ReadFault => return (batch, Some(FileEnd::ReadFault)),
            NextEntry::NoMemory => return (batch, Some(FileEnd::NoMemory)),
        }
    }
}
