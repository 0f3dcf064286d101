//! What is sound of a log, in words of these tests' own, written from the page of the format.
use super::own_records::{has, is_code, is_taken};
use sound_frames::{Damage, Reason};
use std::alloc::{AllocError, Global};

const HEADER: &[u8; 16] = b"UNIONCAT JNL 02\n";

const CLOSED: u8 = b'C';

/// The most bytes of a payload.
const LARGEST: u64 = 3_201_025;

/// The most bytes of one append: a frame with a gate.
const LARGEST_APPEND: u64 = LARGEST + 5;

/// An entry, by the bytes that write it.
#[derive(Clone, Copy)]
pub(super) struct OwnEntry<'a> {
    run: u64,
    file: &'a [u8],
    library: &'a [u8],
    piece: &'a [u8],
    record: &'a [u8],
}

/// What is sound.
#[derive(Drop)]
pub(super) struct OwnPart<'a> {
    pub entries: Vec<OwnEntry<'a>>,
    pub damages: Vec<Damage>,
    pub end: u64,
}

/// What stands behind a gate.
#[derive(Drop)]
enum Behind<'a> {
    NoFrame,
    NotValid,
    /// A sound frame: its entries, and the log from the next gate on.
    Sound(Vec<OwnEntry<'a>>, &'a [u8]),
}

/// What comes of a gate.
#[derive(Clone, Copy)]
enum Stepped<'a> {
    /// It is passed: the log from the next gate on.
    Passed(&'a [u8]),
    /// Reading ends there; and whether a whole frame stands behind it.
    Ended(bool),
}

/// The number that some bytes write, the high byte first.
fn number_of(bytes: &[u8]) -> u64 {
    let mut number = 0u64;
    for byte in bytes {
        number = number.saturating_mul(256).saturating_add(u64::from(*byte));
    }
    number
}

/// So many first bytes, and those behind them.
fn cut(bytes: &[u8], count: u64) -> Option<(&[u8], &[u8])> {
    bytes.split_at_checked(usize::try_from(count).ok()?)
}

/// What stands behind a length of so many bytes: as many bytes as that is, and those behind them.
fn cut_counted(bytes: &[u8], width: u64) -> Option<(&[u8], &[u8])> {
    let (length, behind) = cut(bytes, width)?;
    cut(behind, number_of(length))
}

/// The bytes by which an entry is written alone.
fn bytes_of(alloc: Global, entry: OwnEntry<'_>) -> Result<Vec<u8>, AllocError> {
    let library_length = u8::try_from(entry.library.len()).unwrap_or(u8::MAX);
    let record_length = u32::try_from(entry.record.len()).unwrap_or(u32::MAX);
    let mut bytes = Vec::new(alloc);
    bytes.extend_from_slice(&entry.run.to_be_bytes())?;
    bytes.extend_from_slice(entry.file)?;
    bytes.push(library_length)?;
    bytes.extend_from_slice(entry.library)?;
    bytes.push(1)?;
    bytes.extend_from_slice(entry.piece)?;
    bytes.extend_from_slice(&record_length.to_be_bytes())?;
    bytes.extend_from_slice(entry.record)?;
    Ok(bytes)
}

/// Whether an entry is written so.
pub(super) fn is_written(
    alloc: Global,
    entry: OwnEntry<'_>,
    bytes: &[u8],
) -> Result<bool, AllocError> {
    let own = bytes_of(alloc, entry)?;
    Ok(own.as_slice() == bytes)
}

/// An entry of version 2 without its record, of whose payload the head was read already.
fn cut_short<'a>(bytes: &'a [u8], head: OwnEntry<'a>) -> Option<(OwnEntry<'a>, &'a [u8])> {
    let (piece, behind) = cut(bytes, 8)?;
    Some((OwnEntry { piece, ..head }, behind))
}

/// One of version 1, which is of no load.
fn cut_long(bytes: &[u8]) -> Option<(OwnEntry<'_>, &[u8])> {
    let (file, behind) = cut(bytes, 4)?;
    let (piece, behind) = cut(behind, 8)?;
    let (library, behind) = cut_counted(behind, 1)?;
    let entry = OwnEntry {
        run: 0,
        file,
        library,
        piece,
        record: b"",
    };
    Some((entry, behind))
}

/// The entry that stands first, and what stands behind it; of version 2 with the head of its payload.
fn cut_entry<'a>(bytes: &'a [u8], head: Option<OwnEntry<'a>>) -> Option<(OwnEntry<'a>, &'a [u8])> {
    let (entry, behind) = match head {
        Some(head) => cut_short(bytes, head)?,
        None => cut_long(bytes)?,
    };
    let (record, behind) = cut_counted(behind, 4)?;
    let is_right = number_of(entry.piece) >= 1
        && !has(entry.library, b' ')
        && is_code(entry.library)
        && is_taken(record, entry.library, head.is_none());
    is_right.then_some((OwnEntry { record, ..entry }, behind))
}

/// The head of a payload of version 2, and what stands behind it.
fn cut_head(payload: &[u8]) -> Option<(OwnEntry<'_>, &[u8])> {
    let (run, behind) = cut(payload, 8)?;
    let (file, behind) = cut(behind, 4)?;
    let (library, behind) = cut_counted(behind, 1)?;
    let head = OwnEntry {
        run: number_of(run),
        file,
        library,
        piece: b"",
        record: b"",
    };
    Some((head, behind))
}

/// The entries that stand there, as many as a first byte says, where nothing stands behind them.
fn entries_in<'a>(
    alloc: Global,
    bytes: &'a [u8],
    head: Option<OwnEntry<'a>>,
) -> Result<Option<Vec<OwnEntry<'a>>>, AllocError> {
    let mut entries = Vec::new(alloc);
    let Some((count, behind)) = cut(bytes, 1) else {
        return Ok(None);
    };
    let count = number_of(count);
    let mut rest = behind;
    for _ in 0..count {
        let Some((entry, behind)) = cut_entry(rest, head) else {
            return Ok(None);
        };
        entries.push(entry)?;
        rest = behind;
    }
    if rest.is_empty() && matches!(count, 1..=32) {
        Ok(Some(entries))
    } else {
        Ok(None)
    }
}

/// Whether the load of that number can follow these entries.
fn can_follow(run: u64, before: &[OwnEntry<'_>]) -> bool {
    let last = match before.last() {
        Some(entry) => entry.run,
        None => 0,
    };
    last <= run && run <= (before.len() as u64).saturating_add(1)
}

/// The entries of a payload behind others, where it is valid.
fn read_payload<'a>(
    alloc: Global,
    version: u8,
    payload: &'a [u8],
    before: &[OwnEntry<'_>],
) -> Result<Option<Vec<OwnEntry<'a>>>, AllocError> {
    if version == 1 {
        return entries_in(alloc, payload, None);
    }
    match cut_head(payload) {
        Some((head, behind)) if can_follow(head.run, before) => {
            entries_in(alloc, behind, Some(head))
        }
        _ => Ok(None),
    }
}

/// The payload of the whole frame behind the gate with which these bytes begin, and the bytes from the next gate on.
fn cut_frame(gates: &[u8]) -> Option<(&[u8], &[u8])> {
    let (_gate, frame) = gates.split_first()?;
    let (payload, behind) = cut_counted(frame, 4)?;
    let is_right = !payload.is_empty() && payload.len() as u64 <= LARGEST && !behind.is_empty();
    is_right.then_some((payload, behind))
}

/// What stands behind the gate with which these bytes begin, behind some entries.
fn look<'a>(
    alloc: Global,
    version: u8,
    gates: &'a [u8],
    before: &[OwnEntry<'_>],
) -> Result<Behind<'a>, AllocError> {
    let Some((payload, behind)) = cut_frame(gates) else {
        return Ok(Behind::NoFrame);
    };
    match read_payload(alloc, version, payload, before)? {
        Some(entries) => Ok(Behind::Sound(entries, behind)),
        None => Ok(Behind::NotValid),
    }
}

fn is_sound(
    alloc: Global,
    version: u8,
    gates: &[u8],
    before: &[OwnEntry<'_>],
) -> Result<bool, AllocError> {
    match look(alloc, version, gates, before)? {
        Behind::Sound(_entries, _behind) => Ok(true),
        Behind::NoFrame | Behind::NotValid => Ok(false),
    }
}

/// The first byte of a header that is another than in either version.
fn wrong_place(log: &[u8]) -> Option<usize> {
    for (place, right) in HEADER.iter().enumerate() {
        let byte = log.get(place).copied()?;
        let is_older = place == 14 && byte == b'1';
        if byte != *right && !is_older {
            return Some(place);
        }
    }
    None
}

/// The version that a header names.
fn named_version(log: &[u8]) -> u8 {
    if log.get(14).copied() == Some(b'1') {
        1
    } else {
        2
    }
}

/// The version as which a log is read from its first gate on.
fn version_of(alloc: Global, header: &[u8], gates: &[u8]) -> Result<u8, AllocError> {
    if is_sound(alloc, 2, gates, &[])? {
        return Ok(2);
    }
    if is_sound(alloc, 1, gates, &[])? {
        return Ok(1);
    }
    Ok(named_version(header))
}

fn is_closed(gates: &[u8]) -> bool {
    gates.first().copied() == Some(CLOSED)
}

/// Why reading ends at the gate with which these bytes begin; none where it is closed and nothing stands behind it.
fn end_reason(gates: &[u8], is_whole: bool) -> Option<Reason> {
    let behind = (gates.len() as u64).saturating_sub(1);
    match (is_closed(gates), is_whole) {
        (false, true) => Some(Reason::NotValid),
        (false, false) => Some(Reason::NoFrame),
        (true, _) if behind == 0 => None,
        (true, _) if behind <= LARGEST_APPEND => Some(Reason::Torn),
        (true, _) => Some(Reason::Lost),
    }
}

/// How many bytes of a log stand in front of its last ones.
fn place_of(log: &[u8], last: &[u8]) -> u64 {
    log.len().saturating_sub(last.len()) as u64
}

fn note(damages: &mut Vec<Damage>, place: u64, reason: Option<Reason>) -> Result<(), AllocError> {
    if let Some(reason) = reason {
        damages.push(Damage { place, reason })?;
    }
    Ok(())
}

/// Takes entries behind others.
fn take_all<'a>(entries: &mut Vec<OwnEntry<'a>>, found: &[OwnEntry<'a>]) -> Result<(), AllocError> {
    for entry in found {
        entries.push(*entry)?;
    }
    Ok(())
}

/// Passes the gate with which these bytes begin, where it may be passed, and takes the entries behind it.
fn step<'a>(
    alloc: Global,
    version: u8,
    gates: &'a [u8],
    entries: &mut Vec<OwnEntry<'a>>,
) -> Result<Stepped<'a>, AllocError> {
    let before = entries.len();
    let behind = match look(alloc, version, gates, entries.as_slice())? {
        Behind::NoFrame => return Ok(Stepped::Ended(false)),
        Behind::NotValid => return Ok(Stepped::Ended(true)),
        Behind::Sound(found, behind) => {
            take_all(entries, found.as_slice())?;
            behind
        }
    };
    if is_closed(gates) && !is_sound(alloc, version, behind, entries.as_slice())? {
        entries.truncate(before);
        return Ok(Stepped::Ended(true));
    }
    Ok(Stepped::Passed(behind))
}

/// What is sound of a log from its first gate on, behind the damages that were found already.
fn read_on<'a>(
    alloc: Global,
    version: u8,
    log: &'a [u8],
    first: &'a [u8],
    found: Vec<Damage>,
) -> Result<OwnPart<'a>, AllocError> {
    let mut damages = found;
    let mut entries = Vec::new(alloc);
    let mut gates = first;
    for _ in 0..log.len() {
        let place = place_of(log, gates);
        match step(alloc, version, gates, &mut entries)? {
            Stepped::Passed(behind) => {
                let closed = is_closed(gates).then_some(Reason::ClosedGate);
                note(&mut damages, place, closed)?;
                gates = behind;
            }
            Stepped::Ended(is_whole) => {
                note(&mut damages, place, end_reason(gates, is_whole))?;
                break;
            }
        }
    }
    Ok(OwnPart {
        entries,
        damages,
        end: place_of(log, gates),
    })
}

/// What is sound of a log.
pub(super) fn read_sound(alloc: Global, log: &[u8]) -> Result<OwnPart<'_>, AllocError> {
    let wrong = wrong_place(log);
    let mut damages = Vec::new(alloc);
    if let Some(place) = wrong {
        note(&mut damages, place as u64, Some(Reason::WrongHeader))?;
    }
    match log.split_at_checked(HEADER.len()) {
        Some((header, gates)) if gates.len() > 1 => {
            let version = version_of(alloc, header, gates)?;
            if wrong.is_none() && named_version(header) != version {
                note(&mut damages, 14, Some(Reason::WrongHeader))?;
            }
            read_on(alloc, version, log, gates, damages)
        }
        _ => {
            if wrong.is_none() && log.get(16).copied() != Some(CLOSED) {
                note(&mut damages, 16, Some(Reason::NoFrame))?;
            }
            Ok(OwnPart {
                entries: Vec::new(alloc),
                damages,
                end: 16,
            })
        }
    }
}
