ghost use Rattle.std.specs.Prelude.{◌≡◌, ◌≢◌, ◌+◌, ◌<◌, ◌↔◌, ◌++◌, [], length, Some, IsErr, IfOk, OnOk};
ghost use Rattle.std.specs.Io.KnownBytes.{Appends};
ghost use Rattle.outside.specs.Fault.{HasCause, counted};
ghost use Rattle.outside.specs.Sink.{WritesFront};

use crate::held::Held;
use outside::{Failed, NoMemory, Sink};
use std::alloc::Global;

/// A sink in memory with room for `ROOM` bytes, which fails for want of room alone.
#[derive(Debug, Drop)]
pub struct SureSink<const ROOM: usize> {
    held: Held<ROOM>,
    faults: u64,
    ghost full: { faults ≢ 0 → length held.buffer.items ≡ ROOM },
}

impl<const ROOM: usize> SureSink<ROOM> {
    ghost use Rattle.outside_sure.specs.SureSink.{sink_state};

    /// An empty sink; takes its memory here.
    pub fn new(alloc: Global) -> Result<Self, NoMemory>
        ensures { IfOk result (λ sink. sink_state sink ≡ record { bytes = []; faults = 0 }) }
    {
        Ok(SureSink {
            held: Held::new(alloc)?,
            faults: 0,
        })
    }

    /// An empty sink in this memory; takes no other.
    pub(crate) fn of_held(held: Held<ROOM>) -> Self
        ensures { sink_state result ≡ record { bytes = []; faults = 0 } }
    {
        SureSink {
            held: held.emptied(),
            faults: 0,
        }
    }

    pub(crate) fn into_held(self) -> Held<ROOM>
        ensures { result ≡ self.entry.held }
    {
        self.held
    }

    /// What was written.
    pub fn bytes(&self) -> &[u8]
        ensures { result.now ≡ (sink_state self.now).bytes }
    {
        self.held.bytes()
    }

    /// The faults so far.
    pub fn faults(&self) -> u64
        ensures { result ≡ (sink_state self.now).faults }
    {
        self.faults
    }
}

impl<const ROOM: usize> Sink for SureSink<ROOM> {
    ghost use Rattle.outside_sure.specs.SureSink.{sink_state, sink_after};

    ghost written = { λ s. Some s.held.buffer.items };

    ghost faults = { λ s. s.faults };

    #[tactic(auto, using(crate::proofs::Helds::appended, crate::proofs::Helds::sink_front))]
    fn write_all(&mut self, piece: &[u8]) -> Result<(), Failed>
        ensures bytes { OnOk result (Appends (Some self.old.held.buffer.items) (Some self.new.held.buffer.items) piece.now) }
        ensures front { WritesFront (Some self.old.held.buffer.items) (Some self.new.held.buffer.items) piece.now }
        ensures cause { HasCause self.old.faults self.new.faults result }

        // It fails exactly where the piece would pass the room, and then fills the room with the front that fits.
        ensures fails { IsErr result ↔ (ROOM < length self.old.held.buffer.items + length piece.now) }
        ensures now { self.new.held.buffer.items ≡ sink_after ROOM self.old.held.buffer.items piece.now }
        ensures count { self.new.faults ≡ counted result self.old.faults }
    {
        let end = self.held.len();
        self.held.write_at(end, piece);
        if piece.len() > ROOM - end {
            self.faults = self.faults.saturating_add(1);
            return Err(Failed);
        }
        Ok(())
    }
}
