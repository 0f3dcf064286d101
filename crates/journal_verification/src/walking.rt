//! The walk over a journal's gates and frames.
ghost use Rattle.std.specs.Prelude.{◌≡◌, ℕ, ◌+◌, ◌<◌, ◌≤◌, List, take, drop, length, true, false, Some, IfOk, OnOk, IsErrOf};
ghost use Rattle.sha2.specs.Hashers.{Holds256};
ghost use Rattle.sha2.specs.Sha256.{sha256};
ghost use Rattle.commit_journal.specs.Log.{walk};
ghost use Rattle.commit_journal.specs.Versions.{number_of};
ghost use Rattle.journal_verification.specs.Coming.{Comes, ComesOn, HasVerifyCause};
ghost use Rattle.journal_verification.specs.Walking.{IsLostAt, IsRead, IsUnread};

use crate::coming::Coming;
use crate::fault::VerifyFault;
use crate::gate::{Gate, next_gate};
use commit_journal::{HEAD_BYTES, Version};
use entry_history::{EntryFault, HistoryCounter};
use marc_types::NoMemory;
use outside::Source;
use std::alloc::Global;

/// What stands behind a journal's header, up to its first closed gate.
#[derive(Clone, Copy, Debug, PartialEq, Eq)]
pub struct Found {
    pub entries: u64,
    pub frames: u64,
    /// The SHA-256 of all bytes in front of that gate.
    pub digest: [u8; 32],
    /// The SHA-256 of those in front of the gate behind the number of entries that is wanted, where a frame ends there.
    pub front: Option<[u8; 32]>,
}

/// The payload of the frame behind a gate.
fn payload_in(window: &[u8], count: usize) -> &[u8]
    requires { 5 + count < length window.now }
    ensures { result.now ≡ take count (drop 5 window.now) }
{
    &window[HEAD_BYTES..HEAD_BYTES + count]
}

/// The digest of what was passed where that is wanted, and else the one that was found before.
fn digest_where<S: Source>(
    wanted: bool,
    coming: &Coming<S>,
    before: Option<[u8; 32]>,
) -> Result<Option<[u8; 32]>, NoMemory>
    ensures kept { IfOk result (λ digest. wanted ≡ false → digest ≡ before) }
    ensures new { IfOk result (λ digest. wanted ≡ true → (passed : List ℕ) → Holds256 coming.now.hasher passed
        → digest ≡ Some (sha256 passed)) }
{
    if wanted {
        Ok(Some(coming.digest()?))
    } else {
        Ok(before)
    }
}

/// Passes all frames up to the first closed gate.
fn skip_frames<S: Source>(coming: &mut Coming<S>) -> Result<(), VerifyFault>
    ensures closed { OnOk result ((b : List ℕ) → Comes coming.old.window.items (S.left coming.old.source) b → (walk coming.old.place 0 b).is_closed ≡ true) }
    ensures lost { (wrong : ℕ) → IsErrOf result (VerifyFault.NotAJournal wrong) → (b : List ℕ) → Comes coming.old.window.items (S.left coming.old.source) b
        → IsLostAt wrong (walk coming.old.place 0 b) }
    ensures cause { HasVerifyCause (S.faults coming.old.source) (S.faults coming.new.source) result }
{
    'gates: loop {
        let place = coming.place();
        match next_gate(coming)? {
            Gate::Closed => return Ok(()),
            Gate::Lost => return Err(VerifyFault::NotAJournal(place)),
            Gate::Frame(count) => coming.pass(HEAD_BYTES + count),
        }
    }
}

/// Takes all frames up to the first closed gate, with the digest of those of so many entries.
pub fn take_frames<S: Source>(
    alloc: Global,
    version: Version,
    coming: &mut Coming<S>,
    wanted: u64,
) -> Result<Found, VerifyFault>
    ensures read { IfOk result (λ found. (b : List ℕ) → Comes coming.old.window.items (S.left coming.old.source) b
        → IsRead (number_of version) coming.old.place wanted coming.old.hasher b found coming.new.place) }
    ensures on { OnOk result ((b : List ℕ) → Comes coming.old.window.items (S.left coming.old.source) b
        → ComesOn coming.old.place b coming.new.place coming.new.window.items (S.left coming.new.source)) }
    ensures unread { (wrong : ℕ) → IsErrOf result (VerifyFault.NotAJournal wrong) → (b : List ℕ) → Comes coming.old.window.items (S.left coming.old.source) b
        → IsUnread (number_of version) (walk coming.old.place 0 b) wrong }
    ensures cause { HasVerifyCause (S.faults coming.old.source) (S.faults coming.new.source) result }
{
    let mut counter = HistoryCounter::new(version.number());
    let mut frames = 0;
    let mut front = digest_where(wanted == 0, coming, None)?;
    'gates: loop {
        let place = coming.place();
        match next_gate(coming)? {
            Gate::Closed => {
                return Ok(Found {
                    entries: counter.count(),
                    frames,
                    digest: coming.digest()?,
                    front,
                });
            }
            Gate::Lost => return Err(VerifyFault::NotAJournal(place)),
            Gate::Frame(count) => {
                match counter.read(alloc, payload_in(coming.window(), count)) {
                    Ok(_) => {}
                    Err(EntryFault::NoMemory) => return Err(VerifyFault::NoMemory),
                    Err(EntryFault::BadEntry) => {
                        coming.pass(HEAD_BYTES + count);
                        match skip_frames(coming) {
                            Ok(()) => return Err(VerifyFault::NotAJournal(place)),
                            Err(fault) => return Err(fault),
                        }
                    }
                }
                coming.pass(HEAD_BYTES + count);
                frames += 1;
                front = digest_where(counter.count() == wanted, coming, front)?;
            }
        }
    }
}
