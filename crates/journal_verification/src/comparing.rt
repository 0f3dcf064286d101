//! The command `verify` over a number of entries and a digest.
ghost use Rattle.std.specs.Prelude.{◌≡◌, ◌≤◌, ℕ, List, [], None, Some, Ok, IfSome};
ghost use Rattle.outside.specs.Room.{SameBut};
ghost use Rattle.hex.specs.Hex.{decode_sized};
ghost use Rattle.console_lines.specs.Ends.{outcome};
ghost use Rattle.journal_verification.specs.Comparing.{VerifiesDigest};

use crate::fault::VerifyFault;
use crate::looking::look_file;
use crate::text::digest_text;
use console_lines::{End, Fault, tell, tell_result};
use hex::FromHex;
use marc_types::NoMemory;
use outside::Room;
use std::alloc::Global;

/// The digest of a front, where these are its digits.
fn agreed(front: Option<[u8; 32]>, digits: &str) -> Option<[u8; 32]>
    ensures some { IfSome result (λ digest. (front ≡ Some digest) × (decode_sized digits.now 32 ≡ Ok digest)) }
    ensures none { result ≡ None → (digest : List ℕ) → front ≡ Some digest → decode_sized digits.now 32 ≡ Ok digest → ⊥ }
{
    let front = front?;
    match <[u8; 32] as FromHex>::from_hex(digits) {
        Ok(wanted) if wanted.as_slice() == front.as_slice() => Some(front),
        _ => None,
    }
}

/// The command `verify` over a journal, a number of entries and a digest: tells the digest of the first so many entries where it is that
/// one, and else that the journal has another history. Nothing is written.
pub fn verify_digest<R: Room>(
    alloc: Global,
    room: &mut R,
    console: &mut R::Out,
    journal: &str,
    count: u64,
    digits: &str,
) -> End
    requires closed { (name : List ℕ) → (R.seen room.old).open_as name ≡ None }
    ensures closed { (name : List ℕ) → (R.seen room.new).open_as name ≡ None }
    ensures apart { SameBut (R.seen room.old) (R.seen room.new) [] }
    ensures ends { VerifiesDigest journal.now count digits.now
        (outcome R.seen R.Out.written R.Out.faults room.old room.new console.old console.new result) }
{
    let looked = match look_file(alloc, room, journal, count) {
        Ok(looked) => looked,
        Err(VerifyFault::InputFault) => return tell(console, Fault::Input),
        Err(VerifyFault::NotAJournal(place)) => return tell(console, Fault::NotAJournal(place)),
        Err(VerifyFault::NoMemory) => return tell(console, Fault::Memory),
    };
    let Some(digest) = agreed(looked.front, digits) else {
        return tell(console, Fault::OtherHistory);
    };
    match digest_text(alloc, &digest, count) {
        Ok(text) => tell_result(console, text.as_str(), false),
        Err(NoMemory) => tell(console, Fault::Memory),
    }
}
