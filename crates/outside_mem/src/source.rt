ghost use Rattle.std.specs.Prelude.{◌≡◌, ◌<◌, ◌≤◌, [], ◌++◌, Some, length, take, drop, min, is_err, is_some, IfOk, OnErr};
ghost use Rattle.std.specs.Io.{ReadsAtMost};
ghost use Rattle.std.specs.Io.KnownBytes.{ReadConsumes};
ghost use Rattle.outside.specs.Fault.{HasCause};
ghost use Rattle.outside_mem.specs.Calls.{is_next_listed, after_call, fresh_calls};
ghost use Rattle.outside_mem.specs.Objects.{SourceState, read_length};

use crate::calls::Calls;
use outside::{Failed, Source, copy_front};
use std::marker::Model;

/// A source in memory, which tells its bytes.
#[derive(Debug, Drop)]
pub struct MemSource {
    bytes: Vec<u8>,
    position: usize,
    chunk: usize,
    calls: Calls,
}

impl Model for MemSource {
    ghost use Rattle.std.specs.Prelude.{◌≤◌, drop, vec_len};
    ghost use Rattle.outside_mem.specs.Objects.{SourceState};

    ghost Value = { SourceState };

    ghost view = { λ s. record { left = drop s.position s.bytes.items; chunk = s.chunk; calls = s.calls } };

    ghost invariant = { λ s. (s.position ≤ vec_len s.bytes) × (1 ≤ s.chunk) };
}

impl MemSource {
    /// A source of these bytes, of which one read gives at most `chunk`. The calls whose numbers, counted from 0, stand
    /// in `fails` fail.
    pub fn new(bytes: Vec<u8>, chunk: usize, fails: Vec<u64>) -> Self
        requires { 1 ≤ chunk }
        ensures { result ≡ record { left = bytes.items; chunk = chunk; calls = fresh_calls fails.items } }
    {
        MemSource {
            bytes,
            position: 0,
            chunk,
            calls: Calls::new(fails),
        }
    }

    /// The faults so far.
    pub fn faults(&self) -> u64
        ensures { result ≡ self.now.calls.faults }
    {
        self.calls.faults()
    }
}

/// Copies the front of `bytes`, at most `chunk` of them, into the front of `buf`, and answers how many.
#[tactic(auto, using(outside::proofs::MovedBytes::moved_front, outside::proofs::MovedBytes::no_length))]
fn copy_chunk(bytes: &[u8], buf: &mut [u8], chunk: usize) -> usize
    requires some_chunk { 1 ≤ chunk }
    requires some_room { 0 < length buf.old }
    ensures count { result ≡ min (min (length buf.old) chunk) (length bytes.now) }
    ensures buffer { buf.new ≡ take result bytes.now ++ drop result buf.old }
    ensures front { bytes.now ≡ take result buf.new ++ drop result bytes.now }
    ensures end { result ≡ 0 → bytes.now ≡ [] }
{
    copy_front(&bytes[..bytes.len().min(chunk)], buf)
}

impl Source for MemSource {
    ghost left = { λ s. Some s.left };

    ghost bound = { λ s. length s.left };

    ghost faults = { λ s. s.calls.faults };

    fn remaining(&self) -> u64 {
        (self.bytes.len() - self.position) as u64
    }

    fn read(&mut self, buf: &mut [u8]) -> Result<usize, Failed>
        requires { 0 < length buf.old }
        ensures at_most { ReadsAtMost result buf.new }
        ensures bytes { ReadConsumes (Some self.old.left) (Some self.new.left) result buf.new }
        ensures cause { HasCause self.old.calls.faults self.new.calls.faults result }

        // It fails exactly where the call is listed, and else gives all that it can.
        ensures listed { is_err result ≡ is_next_listed self.old.calls }
        ensures calls { self.new.calls ≡ after_call self.old.calls (is_err result) }
        ensures count { IfOk result (λ n. n ≡ read_length self.old buf.old) }
        ensures buffer { IfOk result (λ n. buf.new ≡ take n self.old.left ++ drop n buf.old) }
        ensures left { IfOk result (λ n. self.new.left ≡ drop n self.old.left) }
        ensures failed { OnErr result ((self.new.left ≡ self.old.left) × (buf.new ≡ buf.old)) }
        ensures chunk { self.new.chunk ≡ self.old.chunk }
    {
        if self.calls.is_next_listed() {
            self.calls.count_fault();
            return Err(Failed);
        }
        let count = copy_chunk(&self.bytes[self.position..], buf, self.chunk);
        self.position += count;
        self.calls.count_success();
        Ok(count)
    }

    ghost use Rattle.std.proofs.Common.{arith};

    ghost left_within_bound = { λ s. Prim.omega arith };
}
