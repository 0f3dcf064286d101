use checkpoint::{Part, PartFault, Point, PointFault, read_part, read_point};
use commit_journal::{Frame, Frames};
use outside::Bytes;
use std::alloc::Global;
use std::test::Fail;

const BEGIN: &[u8] = b"S";

/// Three records that stand ambiguous: two authorities of one name, and a book under it.
const AMBIGUOUS: &[u8] = b"R\
A\x03DLC\0\0\0\x5500085nz  a2200061n  4500001000300000003000400003100001600007\x1en1\x1eDLC\x1e1 \x1faSmith, John\x1e\x1d\0\0\0\
A\x03DLC\0\0\0\x5600086nz  a2200061n  4500001000300000003000400003100001700007\x1en2\x1eDLC\x1e1 \x1faSMITH, JOHN.\x1e\x1d\0\0\0\
B\x04ULIB\0\0\0\x4600070nam a2200049 a 4500001000300000100001700003\x1eb2\x1e1 \x1faSmith, John.\x1e\x1d\0\0";

/// The first of them alone, and the book once it is linked to it.
const FIRST: &[u8] =
    b"RA\x03DLC\0\0\0\x5500085nz  a2200061n  4500001000300000003000400003100001600007\x1en1\x1eDLC\x1e1 \x1faSmith, John\x1e\x1d\0\0\0";

const LINKED: &[u8] =
    b"RB\x04ULIB\0\0\0\x4e00078nam a2200049 a 4500001000300000100002500003\x1eb2\x1e1 \x1faSmith, John\x1f0(DLC)n1\x1e\x1d\0\x01\x03DLC\x02n1";

/// The book as it awaits a key, whole and linked by its flags.
const AWAITING: &[u8] =
    b"RB\x04ULIB\0\0\0\x4600070nam a2200049 a 4500001000300000100001700003\x1eb2\x1e1 \x1faSmith, John.\x1e\x1d\x02\x07\x03DLC\x02n1\x03DLC\x02n9";

const END: &[u8] = b"E\0\0\0\0\0\0\0\x03\0\0\0\0\0\0\0\x03";

/// How many records each brings, or none.
const PARTS: [(&[u8], Option<usize>); 6] = [
    (BEGIN, None),
    (AMBIGUOUS, Some(3)),
    (FIRST, Some(1)),
    (LINKED, Some(1)),
    (AWAITING, Some(1)),
    (END, None),
];

const NO_PARTS: [&[u8]; 14] = [
    b"",
    b"T",
    b"S\0",
    // No record.
    b"R",
    // A number too few, and one too many.
    b"E\0\0\0\0\0\0\0\x03\0\0\0\0\0\0\0",
    b"E\0\0\0\0\0\0\0\x03\0\0\0\0\0\0\0\x03\0",
    // Another class, a code with a parenthesis, and none.
    b"RC\x04ULIB\0\0\0\x4600070nam a2200049 a 4500001000300000100001700003\x1eb2\x1e1 \x1faSmith, John.\x1e\x1d\0\0",
    b"RB\x04ULI(\0\0\0\x4600070nam a2200049 a 4500001000300000100001700003\x1eb2\x1e1 \x1faSmith, John.\x1e\x1d\0\0",
    b"RB\0\0\0\0\x4600070nam a2200049 a 4500001000300000100001700003\x1eb2\x1e1 \x1faSmith, John.\x1e\x1d\0\0",
    // A record in MARC-8, which is written otherwise, and one without a number.
    b"RB\x04ULIB\0\0\0\x4600070nam  2200049 a 4500001000300000100001700003\x1eb2\x1e1 \x1faSmith, John.\x1e\x1d\0\0",
    b"RB\x04ULIB\0\0\0\x3700055nam a2200037 a 4500100001700000\x1e1 \x1faSmith, John.\x1e\x1d\0",
    // A tie too few, a flag above 7, and a key that is cut short.
    b"RB\x04ULIB\0\0\0\x4600070nam a2200049 a 4500001000300000100001700003\x1eb2\x1e1 \x1faSmith, John.\x1e\x1d\0",
    b"RB\x04ULIB\0\0\0\x4600070nam a2200049 a 4500001000300000100001700003\x1eb2\x1e1 \x1faSmith, John.\x1e\x1d\0\x08",
    b"RB\x04ULIB\0\0\0\x4600070nam a2200049 a 4500001000300000100001700003\x1eb2\x1e1 \x1faSmith, John.\x1e\x1d\0\x01\x03DLC\x03n1",
];

fn records(alloc: Global, payload: &[u8]) -> Result<Option<usize>, PartFault> {
    match read_part(alloc, payload)? {
        Part::Rows(rows) => Ok(Some(rows.len())),
        _ => Ok(None),
    }
}

fn brings(alloc: Global, payload: &[u8], count: Option<usize>) -> bool {
    records(alloc, payload) == Ok(count)
}

fn is_no_part(alloc: Global, payload: &[u8]) -> bool {
    records(alloc, payload) == Err(PartFault::BadPart)
}

#[test]
fn parts(rt: HostRuntime) {
    for (payload, count) in &PARTS {
        assert!(rt; brings(rt.alloc(), payload, *count));
    }
}

#[test]
fn no_parts(rt: HostRuntime) {
    for payload in &NO_PARTS {
        assert!(rt; is_no_part(rt.alloc(), payload));
    }
}

/// Logs, and how many entries the history had behind which their last whole checkpoint was made.
const LOGS: [(&[&[u8]], Option<u64>); 7] = [
    (&[], None),
    (&[BEGIN, AMBIGUOUS, END], Some(3)),
    // Half a checkpoint behind a whole one.
    (&[BEGIN, AMBIGUOUS, END, BEGIN, FIRST], Some(3)),
    // A checkpoint that has no beginning, one that lacks records, and one out of order.
    (&[AMBIGUOUS, END], None),
    (&[BEGIN, FIRST, LINKED, END], None),
    (&[BEGIN, LINKED, AMBIGUOUS, END], None),
    // One that was begun twice.
    (&[BEGIN, FIRST, BEGIN, AMBIGUOUS, END], Some(3)),
];

fn frames_of(alloc: Global, payloads: &[&[u8]]) -> Result<Frames, PartFault> {
    let mut frames = Vec::new(alloc);
    for payload in payloads {
        let mut bytes = Vec::new(alloc);
        bytes.extend_from_slice(payload)?;
        frames.push(Frame {
            gate: 16,
            payload: Bytes::from_vec(bytes),
        })?;
    }
    Ok(Frames::from_vec(frames))
}

fn entries_of(found: &Option<Point>) -> Option<u64> {
    match found {
        Some(point) => Some(point.entries),
        None => None,
    }
}

fn has_point(alloc: Global, payloads: &[&[u8]], entries: Option<u64>) -> bool {
    let Ok(frames) = frames_of(alloc, payloads) else {
        return false;
    };
    match read_point(alloc, frames) {
        Ok(found) => entries_of(&found) == entries,
        Err(_) => false,
    }
}

#[test]
fn points(rt: HostRuntime) {
    for (payloads, entries) in &LOGS {
        assert!(rt; has_point(rt.alloc(), payloads, *entries));
    }
}

fn fault_of(alloc: Global, payloads: &[&[u8]]) -> Option<PointFault> {
    match frames_of(alloc, payloads) {
        Ok(frames) => read_point(alloc, frames).err(),
        Err(_) => None,
    }
}

#[test]
fn a_payload_of_no_sort(rt: HostRuntime) {
    assert!(rt; fault_of(rt.alloc(), &[BEGIN, b"T"]) == Some(PointFault::BadPoint(16)));
}
