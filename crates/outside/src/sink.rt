ghost use Rattle.std.specs.Prelude.{◌≡◌, ℕ, List, Option, is_some, OnOk};
ghost use Rattle.std.specs.Io.KnownBytes.{Appends};
ghost use Rattle.outside.specs.Fault.{HasCause};
ghost use Rattle.outside.specs.Sink.{WritesFront};

use crate::Failed;

/// Where bytes go, one piece after another.
pub trait Sink {
    // The bytes that were written, where the sink tells them.
    ghost written: { Self → Option (List ℕ) };

    // The faults so far.
    ghost faults: { Self → ℕ };

    /// Writes the whole piece. After `Failed` some front of it was written, maybe none or all.
    fn write_all(&mut self, piece: &[u8]) -> Result<(), Failed>
        ensures bytes { OnOk result (Appends (written self.old) (written self.new) piece.now) }
        ensures front { WritesFront (written self.old) (written self.new) piece.now }
        ensures tells { is_some (written self.new) ≡ is_some (written self.old) }
        ensures cause { HasCause (faults self.old) (faults self.new) result };
}
