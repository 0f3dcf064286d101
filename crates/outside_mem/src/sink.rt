ghost use Rattle.std.specs.Prelude.{◌≡◌, ◌++◌, [], true, Some, is_err, IsErr, OnOk, OnErr};
ghost use Rattle.std.specs.Io.KnownBytes.{Appends};
ghost use Rattle.outside.specs.Fault.{HasCause};
ghost use Rattle.outside.specs.Sink.{WritesFront};
ghost use Rattle.outside_mem.specs.Calls.{is_next_listed, after_call, fresh_calls};
ghost use Rattle.outside_mem.specs.Objects.{SinkState};

use crate::calls::Calls;
use outside::{Failed, Sink};
use std::alloc::Global;
use std::marker::Model;

/// A sink in memory, which tells its bytes.
#[derive(Debug, Drop)]
pub struct MemSink {
    bytes: Vec<u8>,
    calls: Calls,
}

impl Model for MemSink {
    ghost use Rattle.outside_mem.specs.Objects.{SinkState};

    ghost Value = { SinkState };

    ghost view = { λ s. record { bytes = s.bytes.items; calls = s.calls } };
}

impl MemSink {
    /// An empty sink. The calls whose numbers, counted from 0, stand in `fails` fail; so does one that finds no memory.
    pub fn new(alloc: Global, fails: Vec<u64>) -> Self
        ensures { result ≡ record { bytes = []; calls = fresh_calls fails.items } }
    {
        MemSink {
            bytes: Vec::new(alloc),
            calls: Calls::new(fails),
        }
    }

    /// What was written.
    pub fn bytes(&self) -> &[u8]
        ensures { result.now ≡ self.now.bytes }
    {
        self.bytes.as_slice()
    }

    /// What was written; takes no memory.
    pub fn into_bytes(self) -> Vec<u8>
        ensures { result.items ≡ self.bytes }
    {
        self.bytes
    }

    /// The faults so far.
    pub fn faults(&self) -> u64
        ensures { result ≡ self.now.calls.faults }
    {
        self.calls.faults()
    }

    /// Whether the next call is to fail. The close of an output counts as a call on it.
    pub(crate) fn is_next_listed(&self) -> bool
        ensures { result ≡ is_next_listed self.now.calls }
    {
        self.calls.is_next_listed()
    }
}

impl Sink for MemSink {
    ghost written = { λ s. Some s.bytes };

    ghost faults = { λ s. s.calls.faults };

    fn write_all(&mut self, piece: &[u8]) -> Result<(), Failed>
        ensures front { WritesFront (Some self.old.bytes) (Some self.new.bytes) piece.now }
        ensures cause { HasCause self.old.calls.faults self.new.calls.faults result }

        // A listed call fails. One that fails writes nothing.
        ensures listed { is_next_listed self.old.calls ≡ true → IsErr result }
        ensures calls { self.new.calls ≡ after_call self.old.calls (is_err result) }
        ensures bytes { OnOk result (self.new.bytes ≡ self.old.bytes ++ piece.now) }
        ensures failed { OnErr result (self.new.bytes ≡ self.old.bytes) }
    {
        if self.calls.is_next_listed() || self.bytes.extend_from_slice(piece).is_err() {
            self.calls.count_fault();
            return Err(Failed);
        }
        self.calls.count_success();
        Ok(())
    }
}
