//! What stands behind a gate.
ghost use Rattle.std.specs.Prelude.{◌≡◌, ◌<◌, ◌↔◌, List, length, IsTrue, IfOk, OnOk};
ghost use Rattle.marc_types.specs.declared.entry.Entry.{Entry as AnyEntry};
ghost use Rattle.entry_history.specs.Readers.{HasExtent};
ghost use Rattle.sound_frames.specs.Looking.{Sees, IsSoundAhead};

use crate::frame::frame_behind;
use entry_history::{EntryFault, HistoryCounter};
use entry_record::Prepared;
use marc_types::NoMemory;
use std::alloc::Global;

/// What stands behind a gate.
#[derive(Debug, Drop)]
pub(crate) enum Ahead {
    /// No whole frame.
    NoFrame,
    /// A whole frame, whose payload isn't valid.
    NotValid,
    /// A sound frame, with its entries.
    Sound(Vec<Prepared>),
}

impl Ahead {
    pub(crate) fn is_sound(&self) -> bool
        ensures { IsTrue result ↔ IsSoundAhead self.now }
    {
        match self {
            Ahead::Sound(_) => true,
            Ahead::NoFrame => false,
            Ahead::NotValid => false,
        }
    }
}

/// Looks behind the gate at a place, behind the entries that are counted, and counts those of a sound frame there.
pub(crate) fn look(
    alloc: Global,
    counter: &mut HistoryCounter,
    log: &[u8],
    place: usize,
) -> Result<Ahead, NoMemory>
    requires { place < length log.now }
    ensures seen { IfOk result (λ ahead. (before : List AnyEntry) → HasExtent before counter.old.extent
        → Sees counter.old.version log.now place before ahead counter.new.extent) }
    ensures version { counter.new.version ≡ counter.old.version }
{
    let Some(payload) = frame_behind(log, place) else {
        return Ok(Ahead::NoFrame);
    };
    // so many bytes are in no memory
    if u64::MAX - counter.count() < payload.len() as u64 {
        return Err(NoMemory);
    }
    match counter.read(alloc, payload) {
        Ok(items) => Ok(Ahead::Sound(items)),
        Err(EntryFault::BadEntry) => Ok(Ahead::NotValid),
        Err(EntryFault::NoMemory) => Err(NoMemory),
    }
}
