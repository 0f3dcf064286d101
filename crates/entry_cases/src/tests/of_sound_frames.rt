//! A small journal that is damaged at each place: what is sound of it, next to a reading in words of these tests' own, and its digest.
use super::own_reading::{OwnEntry, OwnPart, is_written, read_sound};
use journal_verification::look_source;
use marc_types::Limits;
use outside_mem::MemSource;
use sound_frames::{SoundPart, find_sound};
use std::alloc::{AllocError, Global};
use std::test::Fail;

/// Two loads in three frames: an authority and a book that it governs; another book; and that the authority is deleted.
const JOURNAL: &[u8] =
    b"UNIONCAT JNL 02\nO\0\0\0\xb3\0\0\0\0\0\0\0\x01\0\0\0\0\x01U\x02\0\0\0\0\0\0\0\x01\0\0\0M00077nz  a2200061 a 4500001000300000003000200003100001000005\x1en1\x1eD\x1e1 \x1faTwain\x1e\x1d\0\0\0\0\0\0\0\x02\0\0\0?00063nam a2200049 a 4500001000300000100001000003\x1eb1\x1e1 \x1faTwain\x1e\x1dO\0\0\0D\0\0\0\0\0\0\0\x01\0\0\0\x01\x01U\x01\0\0\0\0\0\0\0\x01\0\0\0)00041nam a2200037 a 4500001000300000\x1eb2\x1e\x1dO\0\0\0R\0\0\0\0\0\0\0\x02\0\0\0\0\x01U\x01\0\0\0\0\0\0\0\x01\0\0\0700055dz  a2200049 a 4500001000300000003000200003\x1en1\x1eD\x1e\x1dC";

/// A journal of version 1 with three frames: a book, an authority, and that the authority is deleted.
const OLD_JOURNAL: &[u8] =
    b"UNIONCAT JNL 01\nO\0\0\0<\x01\0\0\0\0\0\0\0\0\0\0\0\x01\x01U\0\0\0)00041nam a2200037 a 4500001000300000\x1eb2\x1e\x1dO\0\0\0`\x01\0\0\0\0\0\0\0\0\0\0\0\x02\x01D\0\0\0M00077nz  a2200061 a 4500001000300000003000200003100001000005\x1en1\x1eD\x1e1 \x1faTwain\x1e\x1dO\0\0\0J\x01\0\0\0\0\0\0\0\0\0\0\0\x03\x01D\0\0\0700055dz  a2200049 a 4500001000300000003000200003\x1en1\x1eD\x1e\x1dC";

const LIMITS: Limits = Limits {
    entries: 8,
    bytes: 4096,
};

// Each of these stands behind a function without a clause, so that the walk's proof needn't know what is sound.
fn found_in(alloc: Global, log: &[u8]) -> Result<SoundPart, AllocError> {
    let source = MemSource::new(Vec::from_slice(alloc, log)?, 8192, Vec::new(alloc));
    let (sound, _source) = find_sound(alloc, LIMITS, source);
    match sound {
        Ok(sound) => Ok(sound),
        Err(_) => Err(AllocError),
    }
}

/// The digest that `verify` tells of a journal; none where the bytes are none.
fn digest_of(alloc: Global, log: &[u8]) -> Result<Option<[u8; 32]>, AllocError> {
    let source = MemSource::new(Vec::from_slice(alloc, log)?, 8192, Vec::new(alloc));
    let (looked, _source) = look_source(alloc, source, 0);
    Ok(looked.ok().map(|looked| looked.verified.digest))
}

/// Whether as many entries were found as there are, each written so.
fn has_entries(alloc: Global, found: &SoundPart, own: &[OwnEntry<'_>]) -> Result<bool, AllocError> {
    for (index, entry) in own.iter().enumerate() {
        let is_found = match found.entries.get(index) {
            Some(found) => is_written(alloc, *entry, found.payload())?,
            None => false,
        };
        if !is_found {
            return Ok(false);
        }
    }
    Ok(found.entries.len() == own.len())
}

fn is_same(alloc: Global, found: &SoundPart, own: &OwnPart<'_>) -> Result<bool, AllocError> {
    let has_same = has_entries(alloc, found, own.entries.as_slice())?;
    Ok(has_same && found.damages.as_slice() == own.damages.as_slice() && found.end == own.end)
}

/// Whether what is found of some bytes is what the own reading gives.
fn is_found_right(alloc: Global, log: &[u8]) -> Result<bool, Fail> {
    let found = found_in(alloc, log)?;
    Ok(is_same(alloc, &found, &read_sound(alloc, log)?)?)
}

/// A journal, its history's bytes and their digest.
#[derive(Clone, Copy)]
struct Whole<'a> {
    front: &'a [u8],
    digest: [u8; 32],
}

/// Whether a damaged journal is read right, and tells another digest where a byte of its history is another or lacks.
fn is_told_apart(alloc: Global, whole: Whole<'_>, log: &[u8]) -> Result<bool, Fail> {
    let is_apart = log.starts_with(whole.front) || digest_of(alloc, log)? != Some(whole.digest);
    Ok(is_apart && is_found_right(alloc, log)?)
}

/// Some other values of a byte: each bit of it changed, and what makes it a closed gate or an open one.
fn other_values(byte: u8) -> [u8; 10] {
    [
        byte ^ 0x01,
        byte ^ 0x02,
        byte ^ 0x04,
        byte ^ 0x08,
        byte ^ 0x10,
        byte ^ 0x20,
        byte ^ 0x40,
        byte ^ 0x80,
        b'C',
        b'O',
    ]
}

/// Whether a journal is told apart with that byte changed to each of some other values.
fn is_told_changed(alloc: Global, whole: Whole<'_>, log: &[u8], at: usize) -> Result<bool, Fail> {
    let mut image = Vec::from_slice(alloc, log)?;
    let Some(byte) = log.get(at).copied() else {
        return Ok(false);
    };
    for value in other_values(byte) {
        if at < image.len() {
            image[at] = value;
        }
        if !is_told_apart(alloc, whole, image.as_slice())? {
            return Ok(false);
        }
    }
    Ok(true)
}

/// The first place at which a journal isn't told apart where it is cut or changed there.
fn first_untold(alloc: Global, log: &[u8]) -> Result<Option<usize>, Fail> {
    let (Some((_gate, front)), Some(digest)) = (log.split_last(), digest_of(alloc, log)?) else {
        return Ok(Some(0));
    };
    let whole = Whole { front, digest };
    for at in 0..log.len() {
        if !is_told_apart(alloc, whole, &log[..at])? || !is_told_changed(alloc, whole, log, at)? {
            return Ok(Some(at));
        }
    }
    Ok(None)
}

/// Whether all of a journal is sound.
fn is_sound(alloc: Global, log: &[u8], entries: usize) -> Result<bool, Fail> {
    let found = found_in(alloc, log)?;
    let is_whole = found.entries.len() == entries && found.damages.is_empty();
    Ok(is_whole && is_found_right(alloc, log)?)
}

/// What is sound of a journal that is cut at each byte, and with each byte changed, is what another reading says; the digest of `verify` tells each
/// change of the history.
#[test]
fn each_damage_of_a_small_journal(rt: HostRuntime) -> Result<(), Fail> {
    let alloc = rt.alloc();
    assert!(rt; is_sound(alloc, JOURNAL, 4)?);
    assert!(rt; is_sound(alloc, OLD_JOURNAL, 3)?);
    assert_eq!(rt; first_untold(alloc, JOURNAL)?, None);
    assert_eq!(rt; first_untold(alloc, OLD_JOURNAL)?, None);
    Ok(())
}
