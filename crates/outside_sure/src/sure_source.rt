ghost use Rattle.std.specs.Prelude.{◌≡◌, ◌+◌, ◌<◌, ◌≤◌, [], ◌++◌, length, take, drop, min, Some, IsOk, IfOk};
ghost use Rattle.std.specs.Io.{ReadsAtMost};
ghost use Rattle.std.specs.Io.KnownBytes.{ReadConsumes};
ghost use Rattle.outside.specs.Fault.{HasCause};
ghost use Rattle.outside_sure.specs.SureState.{source_faults};

use outside::{Failed, Source, copy_front};
use std::marker::Model;

/// A source of borrowed bytes, which never fails.
#[derive(Debug, Drop)]
pub struct SureSource<'a> {
    left: &'a [u8],
}

impl<'a> Model for SureSource<'a> {
    ghost use Rattle.std.specs.Prelude.{ℕ, List};

    ghost Value = { List ℕ };

    ghost view = { λ s. s.left.now };
}

impl<'a> SureSource<'a> {
    /// A source of these bytes.
    pub fn new(bytes: &'a [u8]) -> Self
        ensures { result ≡ bytes.now }
    {
        SureSource { left: bytes }
    }

    /// The bytes that are left.
    pub(crate) fn bytes(&self) -> &'a [u8]
        ensures { result.now ≡ self.now }
    {
        self.left
    }
}

impl<'a> Source for SureSource<'a> {
    ghost left = { λ s. Some s };

    ghost bound = { λ s. length s };

    ghost faults = { source_faults };

    fn remaining(&self) -> u64 {
        self.left.len() as u64
    }

    fn read(&mut self, buf: &mut [u8]) -> Result<usize, Failed>
        requires { 0 < length buf.old }
        ensures at_most { ReadsAtMost result buf.new }
        ensures bytes { ReadConsumes (Some self.old) (Some self.new) result buf.new }
        ensures falls { IfOk result (λ n. length self.new + n ≤ length self.old) }
        ensures bounded { length self.new ≤ length self.old }
        ensures cause { HasCause (source_faults self.old) (source_faults self.new) result }

        // It never fails, and gives all that the buffer takes.
        ensures ok { IsOk result }
        ensures count { IfOk result (λ n. n ≡ min (length buf.old) (length self.old)) }
        ensures buffer { IfOk result (λ n. buf.new ≡ take n self.old ++ drop n buf.old) }
        ensures left { IfOk result (λ n. self.new ≡ drop n self.old) }
    {
        let count = copy_front(self.left, buf);
        self.left = &self.left[count..];
        Ok(count)
    }

    ghost use Rattle.std.proofs.Common.{arith};

    ghost left_within_bound = { λ s. Prim.omega arith };
}
