ghost use Rattle.std.specs.Prelude.{◌≡◌, ℕ, ◌+◌, ◌<◌, ◌≤◌, List, length, Option, is_some, IfSome, IfOk};
ghost use Rattle.std.specs.Io.{ReadsAtMost};
ghost use Rattle.std.specs.Io.KnownBytes.{ReadConsumes};
ghost use Rattle.outside.specs.Fault.{HasCause};

use crate::Failed;

/// Where bytes come from, one read after another.
pub trait Source {
    // The bytes that are left, where the source tells them.
    ghost left: { Self → Option (List ℕ) };

    // An upper bound of the number of bytes that will still come.
    ghost bound: { Self → ℕ };

    // The faults so far.
    ghost faults: { Self → ℕ };

    /// At most so many bytes will still come.
    fn remaining(&self) -> u64
        ensures { result ≡ bound self.now };

    /// Moves the next bytes into the front of `buf`, and answers how many. `Ok(0)` is the end of the input.
    fn read(&mut self, buf: &mut [u8]) -> Result<usize, Failed>
        requires { 0 < length buf.old }

        // The bytes that were moved are the first of those left. After `Ok(0)` none is left, after `Failed` all are.
        ensures at_most { ReadsAtMost result buf.new }
        ensures bytes { ReadConsumes (left self.old) (left self.new) result buf.new }
        ensures tells { is_some (left self.new) ≡ is_some (left self.old) }

        // The bound falls by what came, and grows in no call.
        ensures falls { IfOk result (λ n. bound self.new + n ≤ bound self.old) }
        ensures bounded { bound self.new ≤ bound self.old }
        ensures cause { HasCause (faults self.old) (faults self.new) result };

    // No more bytes are left than the bound says.
    ghost left_within_bound: { (source : Self) → IfSome (left source) (λ bytes. length bytes ≤ bound source) };
}
