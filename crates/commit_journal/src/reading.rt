ghost use Rattle.std.specs.Prelude.{◌≡◌, ℕ, ◌+◌, ◌-◌, ◌<◌, ◌≤◌, List, [], length, take, drop, Some, None, IfSome, IfOk, OnOk, IsErrOf};
ghost use Rattle.outside.specs.Disk.{Unchanged};
ghost use Rattle.outside.specs.Fault.{HasCause, Rose};
ghost use Rattle.commit_journal.specs.Log.{header_fault, frames_of, version_of_header, walk, lost_at};
ghost use Rattle.commit_journal.specs.Reading.{HasRead, HasHeader, HeadSays, IsHead, HeadFits, IsStep, IsWalk};
ghost use Rattle.commit_journal.specs.Taking.{AreAllTaken, IsTakenFrom};
ghost use Rattle.commit_journal.specs.Versions.{number_of};

use crate::format::{
    BLANK_LENGTH, CLOSED_GATE, FIRST_GATE, HEAD_BYTES, LARGEST_PAYLOAD, header_version,
};
use crate::frame::Frame;
use crate::taker::FrameTaker;
use crate::{JournalFault, Version, calls};
use outside::{Bytes, Disk, Failed};
use std::alloc::{AllocError, Global};

/// Where a log ends.
#[derive(Clone, Copy, Debug, PartialEq, Eq)]
pub struct LogEnd {
    /// The place of the first closed gate.
    pub place: u64,
    /// The log's version, the newest where it is blank.
    pub version: Version,
}

/// So many bytes of no meaning yet.
pub fn zeros(alloc: Global, count: usize) -> Result<Vec<u8>, AllocError>
    ensures { IfOk result (λ bytes. length bytes.items ≡ count) }
{
    vec![in alloc; 0; count]
}

/// What stands at a gate's place.
#[derive(Debug, Drop)]
enum Head {
    Closed,
    /// An open gate, and a whole frame of a payload of that length.
    Frame(usize),
    /// An open gate, and no whole frame.
    Lost,
}

/// What the bytes of a gate and a length say, where so many bytes are left from the gate on.
#[tactic(auto, using(crate::proofs::Heads::length_bytes))]
fn head_of(head: &[u8; 5], left: u64) -> Head
    ensures { HeadSays head.now left result }
{
    if head[0] == CLOSED_GATE {
        return Head::Closed;
    }
    let length = u32::from_be_bytes([head[1], head[2], head[3], head[4]]) as usize;
    if length == 0 || length > LARGEST_PAYLOAD || left <= (HEAD_BYTES + length) as u64 {
        return Head::Lost;
    }
    Head::Frame(length)
}

/// The bytes of a gate and a length at that place, as far as they stand there.
fn head_bytes<D: Disk>(disk: &mut D, place: u64, count: usize) -> Result<[u8; 5], Failed>
    requires few { count ≤ 5 }
    requires there { place + count ≤ (D.seen disk.old).len }
    ensures bytes { IfOk result (λ head. (b : List ℕ) → (D.seen disk.old).content ≡ Some b
        → take count head ≡ take count (drop place b)) }
    ensures size { IfOk result (λ head. length head ≡ 5) }
    ensures unchanged { Unchanged (D.seen disk.old) (D.seen disk.new) }
    ensures cause { HasCause (D.seen disk.old).faults (D.seen disk.new).faults result }
{
    let mut head = [0; 5];
    calls::read_exactly(disk, place, &mut head[..count])?;
    Ok(head)
}

/// What stands at that place of a gate.
#[tactic(auto, using(crate::proofs::Heads::head_there))]
fn read_head<D: Disk>(disk: &mut D, place: u64) -> Result<Head, Failed>
    requires { place < (D.seen disk.old).len }
    ensures head { IfOk result (λ head. (b : List ℕ) → (D.seen disk.old).content ≡ Some b → IsHead place b head) }
    ensures within { IfOk result (HeadFits ((D.seen disk.old).len - place)) }
    ensures unchanged { Unchanged (D.seen disk.old) (D.seen disk.new) }
    ensures cause { HasCause (D.seen disk.old).faults (D.seen disk.new).faults result }
{
    let left = disk.len() - place;
    let head = head_bytes(disk, place, left.min(HEAD_BYTES as u64) as usize)?;
    Ok(head_of(&head, left))
}

/// The payload of that length at that place.
fn read_payload<D: Disk>(
    alloc: Global,
    disk: &mut D,
    at: u64,
    count: usize,
) -> Result<Bytes, JournalFault>
    requires { at + count ≤ (D.seen disk.old).len }
    ensures bytes { IfOk result (λ payload. (b : List ℕ) → (D.seen disk.old).content ≡ Some b → payload ≡ take count (drop at b)) }
    ensures len { IfOk result (λ payload. length payload ≡ count) }
    ensures not_lost { (wrong : ℕ) → IsErrOf result (JournalFault.NotAJournal wrong) → ⊥ }
    ensures read { HasRead (D.seen disk.old) (D.seen disk.new) result }
{
    let mut payload = zeros(alloc, count)?;
    calls::read_exactly(disk, at, &mut payload)?;
    Ok(Bytes::from_vec(payload))
}

/// The payload behind the open gate at that place, or none where the gate is closed.
fn read_frame<D: Disk>(
    alloc: Global,
    disk: &mut D,
    place: u64,
) -> Result<Option<Bytes>, JournalFault>
    requires { place < (D.seen disk.old).len }
    ensures step { IfOk result (λ payload. (b : List ℕ) → (D.seen disk.old).content ≡ Some b → IsStep place b payload) }
    ensures within { IfOk result (λ payload. IfSome payload (λ p. place + HEAD_BYTES + length p < (D.seen disk.old).len)) }
    ensures some { IfOk result (λ payload. IfSome payload (λ p. 1 ≤ length p)) }
    ensures lost { (wrong : ℕ) → IsErrOf result (JournalFault.NotAJournal wrong) → (b : List ℕ) → (D.seen disk.old).content ≡ Some b
        → walk place 0 (drop place b) ≡ lost_at wrong }
    ensures read { HasRead (D.seen disk.old) (D.seen disk.new) result }
{
    match read_head(disk, place)? {
        Head::Closed => Ok(None),
        Head::Frame(length) => {
            let payload = read_payload(alloc, disk, place + HEAD_BYTES as u64, length)?;
            Ok(Some(payload))
        }
        Head::Lost => Err(JournalFault::NotAJournal(place)),
    }
}

/// Hands on the frames up to the first closed gate, and answers its place. The bytes of one frame are in memory.
fn take_frames<D: Disk, T: FrameTaker>(
    alloc: Global,
    disk: &mut D,
    taker: &mut T,
) -> Result<u64, JournalFault>
    requires long { FIRST_GATE < (D.seen disk.old).len }
    requires none { T.has taker.old taker.old [] }
    ensures taken { IfOk result (λ place. AreAllTaken (T.has taker.old taker.new) place (D.seen disk.old)) }
    ensures lost { (wrong : ℕ) → IsErrOf result (JournalFault.NotAJournal wrong) → (b : List ℕ) → (D.seen disk.old).content ≡ Some b
        → IsWalk wrong b }
    ensures read { HasRead (D.seen disk.old) (D.seen disk.new) result }
{
    let mut place = FIRST_GATE;
    'gates: while let Some(payload) = read_frame(alloc, disk, place)? {
        let next = place + (HEAD_BYTES + payload.len()) as u64;
        taker.take(
            alloc,
            Frame {
                gate: place,
                payload,
            },
        )?;
        place = next;
    }
    Ok(place)
}

/// A right header's version.
fn read_header<D: Disk>(disk: &mut D) -> Result<Version, JournalFault>
    requires { FIRST_GATE ≤ (D.seen disk.old).len }
    ensures right { OnOk result ((b : List ℕ) → (D.seen disk.old).content ≡ Some b → header_fault b ≡ None) }
    ensures version { IfOk result (λ version. (b : List ℕ) → (D.seen disk.old).content ≡ Some b → version_of_header b ≡ number_of version) }
    ensures wrong { (wrong : ℕ) → IsErrOf result (JournalFault.NotAJournal wrong) → (b : List ℕ) → (D.seen disk.old).content ≡ Some b
        → header_fault b ≡ Some wrong }
    ensures read { HasRead (D.seen disk.old) (D.seen disk.new) result }
{
    let mut header = [0; 16];
    calls::read_exactly(disk, 0, &mut header)?;
    match header_version(&header) {
        Ok(version) => Ok(version),
        Err(place) => Err(JournalFault::NotAJournal(place)),
    }
}

/// The version of a log, the newest where it is blank.
pub fn read_version<D: Disk>(disk: &mut D) -> Result<Version, JournalFault>
    ensures header { IfOk result (λ version. HasHeader (number_of version) (D.seen disk.old)) }
    ensures wrong { (wrong : ℕ) → IsErrOf result (JournalFault.NotAJournal wrong) → (b : List ℕ) → (D.seen disk.old).content ≡ Some b
        → frames_of b ≡ Err wrong }
    ensures read { HasRead (D.seen disk.old) (D.seen disk.new) result }
{
    if disk.len() <= BLANK_LENGTH {
        return Ok(Version::Two);
    }
    read_header(disk)
}

/// Hands on the frames of a log of a right header up to its first closed gate, and answers its place. A blank one has no frames.
pub fn take_log<D: Disk, T: FrameTaker>(
    alloc: Global,
    disk: &mut D,
    taker: &mut T,
) -> Result<u64, JournalFault>
    requires none { T.has taker.old taker.old [] }
    ensures taken { IfOk result (λ place. (version : ℕ) → HasHeader version (D.seen disk.old)
        → IsTakenFrom (T.has taker.old taker.new) place version (D.seen disk.old)) }
    ensures lost { (wrong : ℕ) → IsErrOf result (JournalFault.NotAJournal wrong) → (version : ℕ) → HasHeader version (D.seen disk.old)
        → (b : List ℕ) → (D.seen disk.old).content ≡ Some b → frames_of b ≡ Err wrong }
    ensures read { HasRead (D.seen disk.old) (D.seen disk.new) result }
{
    if disk.len() <= BLANK_LENGTH {
        return Ok(FIRST_GATE);
    }
    take_frames(alloc, disk, taker)
}
