ghost use Rattle.std.specs.Prelude.{◌≡◌, ℕ, ◌+◌, ◌≤◌, All, List, [], ◌∷◌, ◌++◌, length, take, max, vec_len, true, false, Some, is_some, IsOk, IfOk, IfErr, OnOk, OnErr, MatchResult};
ghost use Rattle.std.specs.List.{flat_map};
ghost use Rattle.std.specs.Option.{option_map};
ghost use Rattle.outside.specs.Disk.{OnlyContent, LeavesOnly, patch, Torn};
ghost use Rattle.outside.specs.Fault.{HasCause};
ghost use Rattle.commit_journal.specs.declared.format.TheConstants.{FRAME_ROOM};
ghost use Rattle.commit_journal.specs.Log.{frames_of};
ghost use Rattle.commit_journal.specs.Journal.{gated, frame_text, chain_text, frames_from, frames_len, IsPayload, and_frame, and_frames, IsDurableLog, HasFrameOrNot, HasAllOrNone, Steps, Continues, IsRecovered, LeavesContent, Opens, HasOpenCause};
ghost use Rattle.commit_journal.specs.Versions.{number_of};

use crate::format::{CLOSED_GATE, FRAME_ROOM, LARGEST_PAYLOAD, LENGTH_BYTES, OPEN_GATE};
use crate::found::FoundLog;
use crate::frame::Frames;
use crate::{DeviceFault, JournalFault, Version, calls};
use outside::{Bytes, Disk, Failed};
use std::alloc::Global;

/// Writes into the buffer's front a payload's length, the payload and the gate behind it, and answers how many bytes they are.
fn lay_frame(buffer: &mut [u8], payload: &[u8], gate: u8) -> usize
    requires room { length buffer.old ≡ FRAME_ROOM }
    requires most { length payload.now ≤ LARGEST_PAYLOAD }
    ensures count { result ≡ LENGTH_BYTES + length payload.now + 1 }
    ensures text { take result buffer.new ≡ gated gate payload.now }
{
    let end = LENGTH_BYTES + payload.len();
    buffer[..LENGTH_BYTES].copy_from_slice(&(payload.len() as u32).to_be_bytes());
    buffer[LENGTH_BYTES..end].copy_from_slice(payload);
    buffer[end] = gate;
    end + 1
}

/// Writes a payload's frame and a closed gate behind it, and syncs.
fn write_frame<D: Disk>(
    disk: &mut D,
    buffer: &mut [u8],
    at: u64,
    payload: &[u8],
) -> Result<(), Failed>
    requires within { at ≤ (D.seen disk.old).len }
    requires room { length buffer.old ≡ FRAME_ROOM }
    requires most { length payload.now ≤ LARGEST_PAYLOAD }
    ensures content { OnOk result ((D.seen disk.new).content
        ≡ option_map (patch at (frame_text payload.now)) (D.seen disk.old).content) }
    ensures len { OnOk result ((D.seen disk.new).len
        ≡ max (D.seen disk.old).len (at + (LENGTH_BYTES + length payload.now + 1))) }
    ensures durable { OnOk result (OnlyContent (D.seen disk.new)) }
    ensures crash { Steps (Torn at (LENGTH_BYTES + length payload.now + 1)) (D.seen disk.old) (D.seen disk.new) }
    ensures cause { HasCause (D.seen disk.old).faults (D.seen disk.new).faults result }
{
    let count = lay_frame(buffer, payload, CLOSED_GATE);
    calls::write_synced(disk, at, &buffer[..count])
}

/// Writes payloads' frames one behind the other, each with an open gate behind it, and answers where the next one is to stand.
fn write_open<D: Disk>(
    disk: &mut D,
    buffer: &mut [u8],
    at: u64,
    payloads: &[Bytes],
) -> Result<u64, Failed>
    requires within { at ≤ (D.seen disk.old).len }
    requires room { length buffer.old ≡ FRAME_ROOM }
    requires fit { All IsPayload payloads.now }
    ensures next { IfOk result (λ next. next ≡ at + frames_len payloads.now) }
    ensures room { length buffer.new ≡ FRAME_ROOM }
    ensures content { OnOk result ((D.seen disk.new).content
        ≡ option_map (patch at (flat_map (gated OPEN_GATE) payloads.now)) (D.seen disk.old).content) }
    ensures len { OnOk result ((D.seen disk.new).len ≡ max (D.seen disk.old).len (at + frames_len payloads.now)) }
    ensures crash { Steps (Torn at (frames_len payloads.now)) (D.seen disk.old) (D.seen disk.new) }
    ensures cause { HasCause (D.seen disk.old).faults (D.seen disk.new).faults result }
{
    let mut next = at;
    for payload in payloads {
        let count = lay_frame(buffer, payload.as_slice(), OPEN_GATE);
        disk.write_at(next, &buffer[..count])?;
        next += count as u64;
    }
    Ok(next)
}

/// Writes payloads' frames one behind the other with open gates between them, and a last one with a closed gate behind it, and syncs.
/// Answers the place of that gate.
fn write_chain<D: Disk>(
    disk: &mut D,
    buffer: &mut [u8],
    at: u64,
    front: &[Bytes],
    last: &[u8],
) -> Result<u64, Failed>
    requires within { at ≤ (D.seen disk.old).len }
    requires room { length buffer.old ≡ FRAME_ROOM }
    requires fit { All IsPayload front.now }
    requires last { IsPayload last.now }
    ensures gate { IfOk result (λ gate. gate + 1 ≡ at + length (chain_text front.now last.now)) }
    ensures content { OnOk result ((D.seen disk.new).content
        ≡ option_map (patch at (chain_text front.now last.now)) (D.seen disk.old).content) }
    ensures len { OnOk result ((D.seen disk.new).len ≡ max (D.seen disk.old).len (at + length (chain_text front.now last.now))) }
    ensures durable { OnOk result (OnlyContent (D.seen disk.new)) }
    ensures crash { Steps (Torn at (length (chain_text front.now last.now))) (D.seen disk.old) (D.seen disk.new) }
    ensures cause { HasCause (D.seen disk.old).faults (D.seen disk.new).faults result }
{
    let next = write_open(disk, buffer, at, front)?;
    write_frame(disk, buffer, next, last)?;
    Ok(next + (LENGTH_BYTES + last.len()) as u64)
}

/// A log on a disk that is open to be appended to. It has what it needs for that, and takes no more memory.
#[derive(Drop)]
pub struct Journal<D: Disk> {
    pub(crate) disk: D,
    // Room for one frame and the gate behind it.
    pub(crate) buffer: Vec<u8>,
    // The place of the closed gate, which is the log's last byte.
    pub(crate) place: u64,
    pub(crate) version: Version,
    pub(crate) broken: bool,
    ghost room: { vec_len buffer ≡ FRAME_ROOM },
    ghost settled: { broken ≡ false → IsDurableLog place (number_of version) (D.seen disk) },
}

impl<D: Disk> Journal<D> {
    /// Opens a log that a crash may have left, and answers its frames up to the first closed gate. It syncs, reads, and
    /// cuts off what stands behind that gate; a log of 17 bytes or fewer is written anew. A crash during an opening that
    /// has synced leaves the same log. A fault hands the disk back.
    pub fn open(alloc: Global, disk: D) -> Result<(Self, Frames), (D, JournalFault)>
        // The frames are the log's, before and after, and the log is settled.
        ensures recovered { IfOk result (λ r. IsRecovered r.1 r.0.place (number_of r.0.version) (D.seen disk) (D.seen r.0.disk)) }
        ensures whole { IfOk result (λ r. r.0.broken ≡ false) }

        // Each image since the first sync is the same log, and one that is no journal is as it was, byte for byte; where that
        // sync didn't succeed, the content is as it was. The content is the same log, whatever the opening answers.
        ensures crash { MatchResult result (λ r. Opens (D.seen disk) (D.seen r.0.disk)) (λ e. Opens (D.seen disk) (D.seen e.0)) }
        ensures content { MatchResult result (λ r. LeavesContent (D.seen disk) (D.seen r.0.disk)) (λ e. LeavesContent (D.seen disk) (D.seen e.0)) }
        ensures synced { IfOk result (λ r. (D.seen disk).dated ≡ true
            → is_some ((D.seen r.0.disk).synced (D.seen disk).moment) ≡ true) }
        ensures later { MatchResult result (λ r. (D.seen disk).faults ≤ (D.seen r.0.disk).faults) (λ e. (D.seen disk).faults ≤ (D.seen e.0).faults) }

        // A device fault comes only where the count rose, and NotAJournal only where the log is none. All else wrote nothing,
        // and what a crash may leave then is the content alone, or want of memory came before any call on the disk.
        ensures fault { IfErr result (λ e. HasOpenCause (D.seen disk) (D.seen e.0) e.1) }
    {
        let (found, frames) = FoundLog::find(alloc, disk)?;
        match found.settle() {
            Ok(journal) => Ok((journal, frames)),
            Err(failed) => {
                let (disk, _fault) = failed;
                Err((disk, JournalFault::DeviceFault))
            }
        }
    }

    /// The version of the log.
    pub fn version(&self) -> Version
        ensures { result ≡ self.now.version }
    {
        self.version
    }

    /// Whether an append failed. The log has to be opened again.
    pub fn is_broken(&self) -> bool
        ensures { result ≡ self.now.broken }
    {
        self.broken
    }

    /// Gives the disk back.
    pub fn close(self) -> D
        ensures { result ≡ self.disk }
    {
        let journal = self;
        journal.disk
    }

    /// Appends a payload of 1 to 3,201,025 bytes. It makes four calls on the disk: the frame with the next closed gate, a
    /// sync, the open gate, a sync. After `Ok` each crash leaves a log that has the payload; after a fault a crash leaves
    /// it or not, and the journal is broken.
    pub fn append(&mut self, payload: &[u8]) -> Result<(), DeviceFault>
        requires whole { self.old.broken ≡ false }
        requires newest { self.old.version ≡ Version.Two }
        requires some { 1 ≤ length payload.now }
        requires most { length payload.now ≤ LARGEST_PAYLOAD }

        // After Ok the log has the frame at its end, and is all that a crash may leave.
        ensures appended { OnOk result ((b c : List ℕ) → (D.seen self.old.disk).content ≡ Some b → (D.seen self.new.disk).content ≡ Some c
            → frames_of c ≡ and_frame (frames_of b) (record { gate = self.old.place; payload = payload.now })) }
        ensures settled { OnOk result (IsDurableLog self.new.place 2 (D.seen self.new.disk)) }
        ensures place { OnOk result (self.new.place ≡ self.old.place + 1 + LENGTH_BYTES + length payload.now) }

        // Each image at each moment of the call has the frames before, or these and the new one.
        ensures crash { (log : List ℕ) → (D.seen self.old.disk).content ≡ Some log → LeavesOnly (D.seen self.old.disk) (D.seen self.new.disk)
            (HasFrameOrNot log (record { gate = self.old.place; payload = payload.now })) }
        ensures continues { Continues (D.seen self.old.disk) (D.seen self.new.disk) }

        // It fails only where the count of faults rose, and is then broken.
        ensures cause { HasCause (D.seen self.old.disk).faults (D.seen self.new.disk).faults result }
        ensures whole { OnOk result (self.new.broken ≡ false) }
        ensures broken { OnErr result (self.new.broken ≡ true) }
        ensures version { self.new.version ≡ self.old.version }
    {
        self.append_chain(&[], payload)
    }

    /// Appends payloads of 1 to 3,201,025 bytes each, all or none. Their frames are written behind the closed gate, and synced; only then
    /// is that gate opened in a write of its own, and synced. After `Ok` each crash leaves a log that has them all; after a fault a crash
    /// leaves them all or none, and the journal is broken. Where there are none it makes no call on the disk.
    pub fn append_all(&mut self, payloads: &[Bytes]) -> Result<(), DeviceFault>
        requires whole { self.old.broken ≡ false }
        requires newest { self.old.version ≡ Version.Two }
        requires fit { All IsPayload payloads.now }

        // After Ok the log has the frames at its end, and is all that a crash may leave.
        ensures appended { OnOk result ((b c : List ℕ) → (D.seen self.old.disk).content ≡ Some b → (D.seen self.new.disk).content ≡ Some c
            → frames_of c ≡ and_frames (frames_of b) (frames_from self.old.place payloads.now)) }
        ensures settled { OnOk result (IsDurableLog self.new.place 2 (D.seen self.new.disk)) }
        ensures place { OnOk result (self.new.place ≡ self.old.place + frames_len payloads.now) }

        // Each image at each moment of the call has the frames before, or these and all of the new ones.
        ensures crash { (log : List ℕ) → (D.seen self.old.disk).content ≡ Some log → LeavesOnly (D.seen self.old.disk) (D.seen self.new.disk)
            (HasAllOrNone log self.old.place payloads.now) }
        ensures continues { Continues (D.seen self.old.disk) (D.seen self.new.disk) }

        // It fails only where the count of faults rose, and is then broken.
        ensures cause { HasCause (D.seen self.old.disk).faults (D.seen self.new.disk).faults result }
        ensures whole { OnOk result (self.new.broken ≡ false) }
        ensures broken { OnErr result (self.new.broken ≡ true) }
        ensures version { self.new.version ≡ self.old.version }

        // Where there are none the disk is as it was.
        ensures none { payloads.now ≡ [] → IsOk result × (self.new ≡ self.old) }
    {
        match payloads.split_last() {
            Some((last, front)) => self.append_chain(front, last.as_slice()),
            None => Ok(()),
        }
    }

    /// Appends payloads and a last one, all or none.
    fn append_chain(&mut self, front: &[Bytes], last: &[u8]) -> Result<(), DeviceFault>
        requires whole { self.old.broken ≡ false }
        requires newest { self.old.version ≡ Version.Two }
        requires fit { All IsPayload front.now }
        requires last { IsPayload last.now }
        ensures appended { OnOk result ((b c : List ℕ) → (D.seen self.old.disk).content ≡ Some b → (D.seen self.new.disk).content ≡ Some c
            → frames_of c ≡ and_frames (frames_of b) (frames_from self.old.place (front.now ++ last.now ∷ []))) }
        ensures settled { OnOk result (IsDurableLog self.new.place 2 (D.seen self.new.disk)) }
        ensures place { OnOk result (self.new.place ≡ self.old.place + frames_len (front.now ++ last.now ∷ [])) }
        ensures crash { (log : List ℕ) → (D.seen self.old.disk).content ≡ Some log → LeavesOnly (D.seen self.old.disk) (D.seen self.new.disk)
            (HasAllOrNone log self.old.place (front.now ++ last.now ∷ [])) }
        ensures continues { Continues (D.seen self.old.disk) (D.seen self.new.disk) }
        ensures cause { HasCause (D.seen self.old.disk).faults (D.seen self.new.disk).faults result }
        ensures whole { OnOk result (self.new.broken ≡ false) }
        ensures broken { OnErr result (self.new.broken ≡ true) }
        ensures version { self.new.version ≡ self.old.version }
    {
        self.broken = true;
        let gate = write_chain(
            &mut self.disk,
            self.buffer.as_mut_slice(),
            self.place + 1,
            front,
            last,
        )?;
        calls::write_synced(&mut self.disk, self.place, &[OPEN_GATE])?;
        self.place = gate;
        self.broken = false;
        Ok(())
    }
}
