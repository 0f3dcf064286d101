//! What is written into a file: bytes that are due, and the call that writes them.
ghost use Rattle.std.specs.Prelude.{◌≡◌, ℕ, List, [], ◌∷◌, true, Some, None, OnOk, IsErrOf};
ghost use Rattle.std.specs.Io.KnownBytes.{Appends};
ghost use Rattle.outside.specs.Fault.{HasWriteCause};
ghost use Rattle.outside.specs.Room.{SameBut, IsUntouched};
ghost use Rattle.outside.specs.Sink.{WritesFront};
ghost use Rattle.output_files.specs.Outputs.{IsOutputLeft};

use outside::{Room, Sink, WriteFault};

/// A document, ready to be written.
pub trait Document: Drop {
    // The bytes that are due.
    ghost due: { Self → List ℕ };

    // Whether its writing takes memory. All memory of most documents is taken when they are made.
    ghost takes_memory: { Self → Type 0 } = { λ _. ⊥ };

    /// Writes all bytes that are due. After a fault some front of them was written, maybe none or all.
    fn write_to<K: Sink>(self, out: &mut K) -> Result<(), WriteFault>
        ensures written { OnOk result (Appends (K.written out.old) (K.written out.new) (due self)) }
        ensures front { WritesFront (K.written out.old) (K.written out.new) (due self) }
        ensures cause { HasWriteCause (K.faults out.old) (K.faults out.new) result }
        ensures memory { IsErrOf result WriteFault.NoMemory → takes_memory self };
}

/// Writes a document into the file of that name. What can't be written whole is given up.
pub fn write_document<R: Room, D: Document>(
    room: &mut R,
    name: &str,
    document: D,
) -> Result<(), WriteFault>
    requires { (R.seen room.old).open_as name.now ≡ None }
    ensures apart { SameBut (R.seen room.old) (R.seen room.new) (name.now ∷ []) }
    ensures closed { (R.seen room.new).open_as name.now ≡ None }

    // A fault has its cause. For want of memory it fails only where the writing takes some, and then the file is as it was.
    ensures cause { HasWriteCause ((R.seen room.old).out_faults name.now) ((R.seen room.new).out_faults name.now) result }
    ensures memory { IsErrOf result WriteFault.NoMemory → D.takes_memory document }
    ensures untouched { IsErrOf result WriteFault.NoMemory → IsUntouched (R.seen room.old) (R.seen room.new) name.now }

    // The file has all that is due, or is as it was.
    ensures bytes { OnOk result ((R.seen room.old).tells ≡ true → (R.seen room.new).file name.now ≡ Some (D.due document)) }
    ensures left { (R.seen room.old).tells ≡ true → IsOutputLeft (R.seen room.old) (R.seen room.new) name.now (D.due document) }
{
    let mut out = room.open_out(name)?;
    if let Err(fault) = document.write_to(&mut out) {
        room.give_up_out(name, out);
        return Err(fault);
    }
    room.close_out(name, out)?;
    Ok(())
}

/// Bytes that are in memory.
impl Document for Vec<u8> {
    ghost due = { λ bytes. bytes.items };

    fn write_to<K: Sink>(self, out: &mut K) -> Result<(), WriteFault> {
        out.write_all(self.as_slice())?;
        Ok(())
    }
}
