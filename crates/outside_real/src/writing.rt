//! How bytes reach a writer: in order, and of a call that failed some front of them.
ghost use Rattle.std.specs.Prelude.{OnOk};
ghost use Rattle.std.specs.Io.KnownBytes.{Appends};
ghost use Rattle.outside.specs.Sink.{WritesFront};

use crate::cause::Cause;
use std::io::{ErrorKind, Write};

/// Writes the bytes, and lets the writer write what it gathered itself.
#[tactic(auto, using(crate::proofs::Writes::appends_kept, crate::proofs::Writes::front_kept))]
pub fn pass_on<W: Write>(to: &mut W, bytes: &[u8]) -> Result<(), Cause>
    ensures bytes { OnOk result (Appends (W.contents to.old) (W.contents to.new) bytes.now) }
    ensures front { WritesFront (W.contents to.old) (W.contents to.new) bytes.now }
{
    write_whole(to, bytes)?;
    match to.flush() {
        Ok(()) => Ok(()),
        Err(error) => Err(Cause::of(&error)),
    }
}

/// Writes the bytes. The writer's own `write_all` doesn't say what a failure leaves.
pub fn write_whole<W: Write>(to: &mut W, bytes: &[u8]) -> Result<(), Cause>
    ensures bytes { OnOk result (Appends (W.contents to.old) (W.contents to.new) bytes.now) }
    // Also where it fails, the writer has gained a front of the bytes and nothing else.
    ensures front { WritesFront (W.contents to.old) (W.contents to.new) bytes.now }
{
    let mut sent = 0;
    'writes: for _ in 0..u64::MAX {
        if sent >= bytes.len() {
            return Ok(());
        }
        match to.write(&bytes[sent..]) {
            Ok(0) => return Err(Cause::Other),
            Ok(n) => sent += n,
            Err(e) => {
                if e.kind() != ErrorKind::Interrupted {
                    return Err(Cause::of(&e));
                }
            }
        }
    }
    Err(Cause::Other)
}
