ghost use Rattle.std.specs.Prelude.{◌≡◌, ◌≢◌, ◌≤◌, ℕ, List, [], length, take, Some, None, IfOk, IfErr, OnOk, IsErrOf};
ghost use Rattle.sha2.specs.Hashers.{Holds256};
ghost use Rattle.sha2.specs.Sha256.{sha256};
ghost use Rattle.commit_journal.specs.declared.format.TheConstants.{FIRST_GATE};
ghost use Rattle.commit_journal.specs.Log.{header_fault, version_of_header};
ghost use Rattle.commit_journal.specs.declared.tail.Tail.TheVariants.{Nothing};
ghost use Rattle.commit_journal.specs.Versions.{number_of};
ghost use Rattle.journal_verification.specs.Coming.{Comes, HasVerifyCause};
ghost use Rattle.journal_verification.specs.Contents.{torn_behind, IsVerified};
ghost use Rattle.journal_verification.specs.Digests.{IsFrontDigest};
ghost use Rattle.entry_history.specs.Frames.{IsNoJournal};

use crate::coming::Coming;
use crate::fault::VerifyFault;
use crate::walking::take_frames;
use commit_journal::{BLANK_LENGTH, HEADER_BYTES, Tail, Version, header_version, tail_behind};
use marc_types::NoMemory;
use outside::Source;
use std::alloc::Global;

/// What a journal has.
#[derive(Clone, Copy, Debug, PartialEq, Eq)]
pub struct Verified {
    pub version: u8,
    pub entries: u64,
    pub frames: u64,
    pub bytes: u64,
    /// The SHA-256 of those in front of the first closed gate; of a blank journal of the first 16.
    pub digest: [u8; 32],
    /// The place of the closed gate behind which bytes stand that are no part of the journal.
    pub torn: Option<u64>,
    /// What these bytes can be.
    pub tail: Tail,
}

/// What a journal has, and the SHA-256 of its bytes in front of the gate behind so many entries, where a frame ends there.
#[derive(Clone, Copy, Debug, PartialEq, Eq)]
pub struct Looked {
    pub verified: Verified,
    pub front: Option<[u8; 32]>,
}

/// What a blank log has whose bytes are all in the window, of which none was passed.
fn blank<S: Source>(coming: &mut Coming<S>, wanted: u64) -> Result<Looked, NoMemory>
    requires { Holds256 coming.old.hasher [] }
    ensures verified { IfOk result (λ l. l.verified ≡ record {
      version = 2;
      entries = 0;
      frames = 0;
      bytes = length coming.old.window.items;
      digest = sha256 (take FIRST_GATE coming.old.window.items);
      torn = None;
      tail = Nothing;
    }) }
    ensures none { IfOk result (λ l. wanted ≡ 0 → l.front ≡ Some (sha256 (take FIRST_GATE coming.old.window.items))) }
    ensures more { IfOk result (λ l. wanted ≢ 0 → l.front ≡ None) }
    ensures source { coming.new.source ≡ coming.old.source }
{
    let bytes = coming.window().len();
    coming.pass(bytes.min(HEADER_BYTES));
    let digest = coming.digest()?;
    Ok(Looked {
        verified: Verified {
            version: 2,
            entries: 0,
            frames: 0,
            bytes: bytes as u64,
            digest,
            torn: None,
            tail: Tail::Nothing,
        },
        front: (wanted == 0).then_some(digest),
    })
}

/// The place of the closed gate, where of so many bytes some stand behind it.
fn torn_at(place: u64, bytes: u64) -> Option<u64>
    ensures { result ≡ torn_behind place bytes }
{
    if bytes.saturating_sub(place) > 1 {
        Some(place)
    } else {
        None
    }
}

/// The version that a journal's first bytes name, or the place of the first byte of its header that is wrong.
#[tactic(auto, using(commit_journal::proofs::Logs::says_front))]
fn version_in(bytes: &[u8]) -> Result<Version, u64>
    requires { 16 ≤ length bytes.now }
    ensures right { OnOk result (header_fault bytes.now ≡ None) }
    ensures version { IfOk result (λ version. number_of version ≡ version_of_header bytes.now) }
    ensures wrong { IfErr result (λ place. header_fault bytes.now ≡ Some place) }
{
    let mut header = [0; HEADER_BYTES];
    header.copy_from_slice(&bytes[..HEADER_BYTES]);
    header_version(&header)
}

/// What the journal has whose bytes come, and the digest of its front of so many entries.
fn look_coming<S: Source>(
    alloc: Global,
    coming: &mut Coming<S>,
    wanted: u64,
) -> Result<Looked, VerifyFault>
    requires place { coming.old.place ≡ 0 }
    requires hashed { Holds256 coming.old.hasher [] }
    ensures verified { IfOk result (λ l. (log : List ℕ) → Comes coming.old.window.items (S.left coming.old.source) log → IsVerified log l.verified) }
    ensures front { IfOk result (λ l. (log : List ℕ) → Comes coming.old.window.items (S.left coming.old.source) log → IsFrontDigest log wanted l.front) }
    ensures lost { (wrong : ℕ) → IsErrOf result (VerifyFault.NotAJournal wrong) → (log : List ℕ) →
        Comes coming.old.window.items (S.left coming.old.source) log → IsNoJournal log wrong }
    ensures cause { HasVerifyCause (S.faults coming.old.source) (S.faults coming.new.source) result }
{
    if !coming.fill(BLANK_LENGTH as usize + 1)? {
        return Ok(blank(coming, wanted)?);
    }
    let version = match version_in(coming.window()) {
        Ok(version) => version,
        Err(place) => return Err(VerifyFault::NotAJournal(place)),
    };
    coming.pass(HEADER_BYTES);
    let found = match take_frames(alloc, version, coming, wanted) {
        Ok(found) => found,
        Err(fault) => return Err(fault),
    };
    let place = coming.place();
    let bytes = coming.total()?;
    Ok(Looked {
        verified: Verified {
            version: version.number(),
            entries: found.entries,
            frames: found.frames,
            bytes,
            digest: found.digest,
            torn: torn_at(place, bytes),
            tail: tail_behind(place, bytes),
        },
        front: found.front,
    })
}

/// Reads a journal as an input, from its first byte to its last, and gives the input back: what it has with the digest of its front of so
/// many entries, or why it is none. It keeps one frame, and the entries.
pub fn look_source<S: Source>(
    alloc: Global,
    source: S,
    wanted: u64,
) -> (Result<Looked, VerifyFault>, S)
    ensures verified { IfOk result.0 (λ l. (log : List ℕ) → S.left source ≡ Some log → IsVerified log l.verified) }
    ensures front { IfOk result.0 (λ l. (log : List ℕ) → S.left source ≡ Some log → IsFrontDigest log wanted l.front) }
    ensures lost { (wrong : ℕ) → IsErrOf result.0 (VerifyFault.NotAJournal wrong) → (log : List ℕ) → S.left source ≡ Some log
        → IsNoJournal log wrong }
    ensures cause { HasVerifyCause (S.faults source) (S.faults result.1) result.0 }
{
    let mut coming = Coming::new(alloc, source);
    let looked = look_coming(alloc, &mut coming, wanted);
    (looked, coming.close())
}
