ghost use Rattle.std.specs.Prelude.{All};
ghost use Rattle.commit_journal.specs.Journal.{IsPayload};

use commit_journal::{FoundLog, Frames, Journal, JournalFault, LARGEST_PAYLOAD, Version};
use outside::{Bytes, Disk};
use outside_mem::MemDisk;
use std::alloc::Global;
use std::process::Abort;
use std::test::Fail;

/// No log of a test is longer.
const MOST_BYTES: usize = 4096;

const EMPTY: &[u8] = b"UNIONCAT JNL 02\nC";

/// A log of one frame of three bytes, with bytes behind its closed gate that a torn append left.
const TORN: &[u8] = b"UNIONCAT JNL 02\nO\0\0\0\x03oneC\0\0\0\x03twoC";

fn disk_of(alloc: Global, bytes: &[u8], fails: &[u64]) -> Result<MemDisk, Fail> {
    let bytes = bytes[..bytes.len().min(MOST_BYTES)].to_vec(alloc)?;
    Ok(MemDisk::new(alloc, bytes, fails.to_vec(alloc)?))
}

// The opening tells nothing more, so that a test's proof knows no more.
fn opened(
    alloc: Global,
    disk: MemDisk,
) -> Result<(Journal<MemDisk>, Frames), (MemDisk, JournalFault)> {
    Journal::open(alloc, disk)
}

/// How many frames a log opens to, or why it doesn't.
fn found(alloc: Global, bytes: &[u8]) -> Result<Result<usize, JournalFault>, Fail> {
    match opened(alloc, disk_of(alloc, bytes, &[])?) {
        Ok((_journal, frames)) => Ok(Ok(frames.len())),
        Err((_disk, fault)) => Ok(Err(fault)),
    }
}

fn open(alloc: Global, bytes: &[u8]) -> Result<(Journal<MemDisk>, Frames), Fail> {
    match opened(alloc, disk_of(alloc, bytes, &[])?) {
        Ok(opened) => Ok(opened),
        Err((_disk, fault)) => Err(Fail::from(fault)),
    }
}

/// Whether a payload was appended; not to a journal that is broken or of version 1.
fn append(journal: &mut Journal<MemDisk>, payload: &[u8]) -> bool {
    if payload.is_empty() || payload.len() > LARGEST_PAYLOAD {
        return false;
    }
    if journal.is_broken() || journal.version() != Version::Two {
        return false;
    }
    journal.append(payload).is_ok()
}

/// The disk of a log to which a payload was appended.
fn appended(rt: &impl Abort, alloc: Global, log: &[u8], payload: &[u8]) -> Result<MemDisk, Fail> {
    let (mut journal, _frames) = open(alloc, log)?;
    assert!(rt; append(&mut journal, payload));
    Ok(journal.close())
}

const LOGS: [(&[u8], Result<usize, JournalFault>); 8] = [
    (b"", Ok(0)),
    (b"xxxxxxxxxxxxxxxxx", Ok(0)),
    (b"xxxxxxxxxxxxxxxxxx", Err(JournalFault::NotAJournal(0))),
    (b"UNIONCAT JNL 03\nC ", Err(JournalFault::NotAJournal(14))),
    (b"UNIONCAT JNL 02\nO\0", Err(JournalFault::NotAJournal(16))),
    (
        b"UNIONCAT JNL 02\nO\0\0\0\x01xO\0\0\0\0C",
        Err(JournalFault::NotAJournal(22)),
    ),
    (b"UNIONCAT JNL 01\nO\0\0\0\x01xC", Ok(1)),
    (b"UNIONCAT JNL 02\nZ\0\0\0\x01xZ\0\0\0\x02abCO", Ok(2)),
];

#[test]
fn logs_open_to_their_frames_or_are_none(rt: HostRuntime) -> Result<(), Fail> {
    for (bytes, want) in &LOGS {
        assert!(rt; found(rt.alloc(), bytes)? == *want);
    }
    Ok(())
}

#[test]
fn a_blank_log_is_written_anew(rt: HostRuntime) -> Result<(), Fail> {
    let (journal, _frames) = open(rt.alloc(), b"UNIONCAT")?;
    assert_eq!(rt; journal.version(), Version::Two);
    let disk = journal.close();
    assert_eq!(rt; disk.bytes(), EMPTY);
    // The start, a sync, the cut, the header and its gate in one write, a sync.
    assert_eq!(rt; disk.moments(), 5);
    Ok(())
}

/// A log with another byte as its first gate.
fn with_gate(rt: &impl Abort, alloc: Global, log: &[u8], gate: u8) -> Result<Vec<u8>, Fail> {
    let mut other = log.to_vec(alloc)?;
    assert!(rt; other.len() > 16);
    other[16] = gate;
    Ok(other)
}

/// The frames of a log of version 2.
fn frames_of(rt: &impl Abort, alloc: Global, log: &[u8]) -> Result<Frames, Fail> {
    let (journal, frames) = open(alloc, log)?;
    assert_eq!(rt; journal.version(), Version::Two);
    Ok(frames)
}

fn is_one_frame(frames: &Frames, gate: u64, payload: &[u8]) -> bool {
    match frames.as_slice() {
        [frame] => frame.gate == gate && frame.payload.as_slice() == payload,
        _ => false,
    }
}

#[test]
fn a_payload_is_appended_and_read_again(rt: HostRuntime) -> Result<(), Fail> {
    let disk = appended(&rt, rt.alloc(), b"", &[7; 188])?;
    let log = disk.bytes();
    assert_eq!(rt; log.len(), 210);
    assert!(rt; log.starts_with(b"UNIONCAT JNL 02\nO\0\0\0\xBC"));
    assert!(rt; log.ends_with(b"C"));
    let other = with_gate(&rt, rt.alloc(), log, 0x5A)?;
    let frames = frames_of(&rt, rt.alloc(), other.as_slice())?;
    assert!(rt; is_one_frame(&frames, 16, &[7; 188]));
    Ok(())
}

/// How many frames a crash leaves.
fn left(
    rt: &impl Abort,
    alloc: Global,
    disk: &MemDisk,
    moment: u64,
    choice: u8,
) -> Result<usize, Fail> {
    assert!(rt; moment < disk.moments());
    let image = disk.crash(alloc, moment, choice)?;
    let (_journal, frames) = open(alloc, image.as_slice())?;
    Ok(frames.len())
}

#[test]
fn a_crash_leaves_what_was_promised(rt: HostRuntime) -> Result<(), Fail> {
    let disk = appended(&rt, rt.alloc(), TORN, b"two")?;
    // The opening's first sync is moment 1. The last moments are those after the four calls of the append: the frame, a
    // sync, the open gate, a sync.
    assert_eq!(rt; disk.moments(), 8);
    for moment in 1..8 {
        for choice in 0..3 {
            let found = left(&rt, rt.alloc(), &disk, moment, choice)?;
            let least = if moment == 7 { 2 } else { 1 };
            let most = if moment < 6 { 1 } else { 2 };
            assert!(rt; least <= found && found <= most);
        }
    }
    Ok(())
}

/// Where a call fails: whether the frame that was there is found, and another only behind it.
fn keeps_the_frame(alloc: Global, call: u64) -> Result<bool, Fail> {
    match opened(alloc, disk_of(alloc, TORN, &[call])?) {
        Ok((mut journal, _frames)) => {
            let is_done = append(&mut journal, b"two");
            let is_sound = journal.is_broken() != is_done;
            let frames = found(alloc, journal.close().bytes())?;
            Ok(is_sound && (frames == Ok(1) || frames == Ok(2)))
        }
        Err((disk, fault)) => {
            Ok(fault == JournalFault::DeviceFault && found(alloc, disk.bytes())? == Ok(1))
        }
    }
}

#[test]
fn each_call_may_fail(rt: HostRuntime) -> Result<(), Fail> {
    for call in 0..16 {
        assert!(rt; keeps_the_frame(rt.alloc(), call)?);
    }
    Ok(())
}

/// The same for finding alone.
fn looked_at(
    alloc: Global,
    disk: MemDisk,
) -> Result<(FoundLog<MemDisk>, Frames), (MemDisk, JournalFault)> {
    FoundLog::find(alloc, disk)
}

fn find(alloc: Global, bytes: &[u8]) -> Result<(FoundLog<MemDisk>, Frames), Fail> {
    match looked_at(alloc, disk_of(alloc, bytes, &[])?) {
        Ok(found) => Ok(found),
        Err((_disk, fault)) => Err(Fail::from(fault)),
    }
}

#[test]
fn a_log_that_is_left_keeps_every_byte(rt: HostRuntime) -> Result<(), Fail> {
    for log in &[TORN, b"UNIONCAT".as_slice()] {
        let (found, frames) = find(rt.alloc(), log)?;
        assert_eq!(rt; found.version(), Version::Two);
        assert!(rt; frames.len() <= 1);
        let disk = found.leave();
        assert!(rt; disk.bytes() == *log);
        // The start, and a sync.
        assert_eq!(rt; disk.moments(), 2);
    }
    Ok(())
}

#[test]
fn a_log_that_is_settled_ends_with_its_closed_gate(rt: HostRuntime) -> Result<(), Fail> {
    let (found, frames) = find(rt.alloc(), TORN)?;
    assert!(rt; is_one_frame(&frames, 16, b"one"));
    match found.settle() {
        Ok(journal) => {
            let disk = journal.close();
            assert_eq!(rt;
                disk.bytes(),
                b"UNIONCAT JNL 02\nO\0\0\0\x03oneC".as_slice()
            );
        }
        Err((_disk, fault)) => return Err(Fail::from(fault)),
    }
    Ok(())
}

fn two_and_three(alloc: Global) -> Result<[Bytes; 2], Fail> {
    Ok([
        Bytes::from_vec(b"two".to_vec(alloc)?),
        Bytes::from_vec(b"three".to_vec(alloc)?),
    ])
}

fn is_payload(rt: &impl Abort, payload: &Bytes)
    ensures { IsPayload payload.now }
{
    assert!(rt; !payload.is_empty());
    assert!(rt; payload.len() <= LARGEST_PAYLOAD);
}

fn are_payloads(rt: &impl Abort, payloads: &[Bytes])
    ensures { All IsPayload payloads.now }
{
    for payload in payloads {
        is_payload(rt, payload);
    }
}

// Appends payloads, all or none; not to a journal that is broken or of version 1.
fn append_all(rt: &impl Abort, journal: &mut Journal<MemDisk>, payloads: &[Bytes]) -> bool {
    if journal.is_broken() || journal.version() != Version::Two {
        return false;
    }
    are_payloads(rt, payloads);
    journal.append_all(payloads).is_ok()
}

/// Whether two payloads were appended together.
fn append_both(
    rt: &impl Abort,
    alloc: Global,
    journal: &mut Journal<MemDisk>,
) -> Result<bool, Fail> {
    let payloads = two_and_three(alloc)?;
    Ok(append_all(rt, journal, &payloads))
}

#[test]
fn a_crash_leaves_all_of_several_payloads_or_none(rt: HostRuntime) -> Result<(), Fail> {
    let (mut journal, _frames) = open(rt.alloc(), TORN)?;
    assert!(rt; append_both(&rt, rt.alloc(), &mut journal)?);
    let disk = journal.close();
    assert!(rt;
        disk.bytes()
            .ends_with(b"oneO\0\0\0\x03twoO\0\0\0\x05threeC")
    );
    // The opening's first sync is moment 1. The last moments are those after two frames, a sync, the open gate, a sync.
    assert_eq!(rt; disk.moments(), 9);
    for moment in 5..9 {
        for choice in 0..3 {
            let found = left(&rt, rt.alloc(), &disk, moment, choice)?;
            assert!(rt; found == 3 || (found == 1 && moment < 8));
            assert!(rt; found == 1 || moment > 6);
        }
    }
    Ok(())
}
