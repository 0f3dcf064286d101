ghost use Rattle.std.specs.Prelude.{◌≡◌, ◌++◌, [], Some, OnOk, OnErr};
ghost use Rattle.std.specs.Io.KnownBytes.{Appends};
ghost use Rattle.outside.specs.Fault.{HasCause, counted};
ghost use Rattle.outside.specs.Sink.{WritesFront};

use crate::{Failed, Sink};
use std::alloc::Global;

/// A sink that keeps what it is given. A call fails for want of memory alone, and then writes nothing.
#[derive(Debug, Drop)]
pub struct ByteSink {
    bytes: Vec<u8>,
    faults: u64,
}

impl ByteSink {
    /// An empty sink.
    pub fn new(alloc: Global) -> Self
        ensures written { ⟦<ByteSink as Sink>⟧.written result ≡ Some [] }
        ensures fresh { ⟦<ByteSink as Sink>⟧.faults result ≡ 0 }
    {
        ByteSink {
            bytes: Vec::new(alloc),
            faults: 0,
        }
    }

    /// What was written.
    pub fn as_slice(&self) -> &[u8]
        ensures { ⟦<ByteSink as Sink>⟧.written self.now ≡ Some result.now }
    {
        self.bytes.as_slice()
    }

    /// What was written; takes no memory.
    pub fn into_bytes(self) -> Vec<u8>
        ensures { ⟦<ByteSink as Sink>⟧.written self ≡ Some result.items }
    {
        self.bytes
    }
}

impl Sink for ByteSink {
    ghost written = { λ s. Some s.bytes.items };

    ghost faults = { λ s. s.faults };

    #[tactic(auto, using(crate::proofs::Fronts::front_none, crate::proofs::Fronts::front_all))]
    fn write_all(&mut self, piece: &[u8]) -> Result<(), Failed>
        ensures front { WritesFront (Some self.old.bytes.items) (Some self.new.bytes.items) piece.now }
        ensures bytes { OnOk result (Appends (Some self.old.bytes.items) (Some self.new.bytes.items) piece.now) }
        ensures failed { OnErr result (self.new.bytes.items ≡ self.old.bytes.items) }
        ensures cause { HasCause self.old.faults self.new.faults result }
        ensures counts { self.new.faults ≡ counted result self.old.faults }
    {
        if self.bytes.extend_from_slice(piece).is_err() {
            self.faults = self.faults.saturating_add(1);
            return Err(Failed);
        }
        Ok(())
    }
}
