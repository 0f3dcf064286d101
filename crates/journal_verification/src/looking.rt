ghost use Rattle.std.specs.Prelude.{◌≡◌, ◌≤◌, ℕ, List, [], true, None, IsSomeAnd, IfOk, IsErrOf};
ghost use Rattle.outside.specs.Fault.{Rose};
ghost use Rattle.outside.specs.Room.{SameBut};
ghost use Rattle.journal_verification.specs.Contents.{IsVerified};
ghost use Rattle.journal_verification.specs.Digests.{IsFrontDigest};
ghost use Rattle.entry_history.specs.Frames.{IsNoJournal};

use crate::fault::VerifyFault;
use crate::verified::{Looked, look_source};
use outside::Room;
use std::alloc::Global;

/// What the file of that name has, which is read as an input and closed again, and the digest of its front of so many entries.
pub fn look_file<R: Room>(
    alloc: Global,
    room: &mut R,
    name: &str,
    wanted: u64,
) -> Result<Looked, VerifyFault>
    requires { (R.seen room.old).open_as name.now ≡ None }
    ensures stays { SameBut (R.seen room.old) (R.seen room.new) [] }
    ensures verified { IfOk result (λ l. (R.seen room.old).tells ≡ true →
        IsSomeAnd ((R.seen room.old).file name.now) (λ log. IsVerified log l.verified)) }
    ensures front { IfOk result (λ l. (R.seen room.old).tells ≡ true →
        IsSomeAnd ((R.seen room.old).file name.now) (λ log. IsFrontDigest log wanted l.front)) }
    ensures none { (place : ℕ) → IsErrOf result (VerifyFault.NotAJournal place) → (R.seen room.old).tells ≡ true →
        IsSomeAnd ((R.seen room.old).file name.now) (λ log. IsNoJournal log place) }
    ensures input { IsErrOf result VerifyFault.InputFault → Rose ((R.seen room.old).in_faults name.now) ((R.seen room.new).in_faults name.now) }
{
    let Ok(source) = room.open_in(name) else {
        return Err(VerifyFault::InputFault);
    };
    let (looked, source) = look_source(alloc, source, wanted);
    room.close_in(name, source);
    looked
}
