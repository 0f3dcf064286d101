//! The version as which a log is read, and the damage of its header.
ghost use Rattle.std.specs.Prelude.{◌≡◌, ◌<◌, ◌++◌, length, take, drop, IfOk};
ghost use Rattle.entry_history.specs.Readers.{IsVersion};
ghost use Rattle.commit_journal.specs.declared.format.TheConstants.{BLANK_LENGTH, HEADER_2};
ghost use Rattle.commit_journal.specs.Log.{header_fault, version_of_header};
ghost use Rattle.sound_frames.specs.Sound.{IsReadAs, has_closed_gate, wrong_blank, wrong_header};
ghost use Rattle.sound_frames.specs.Looking.{as_list, BeginsAs};

use crate::looking::look;
use crate::{Damage, Reason};
use commit_journal::{
    CLOSED_GATE, DIGIT_1, FIRST_GATE, HEADER_2, HEADER_BYTES, VERSION_PLACE, header_version,
};
use entry_history::HistoryCounter;
use marc_types::NoMemory;
use std::alloc::Global;

/// The version that a header names, right or not.
#[tactic(auto, unfolding(commit_journal::specs::Log::version_of_header))]
pub(crate) fn named_version(log: &[u8]) -> u8
    requires { BLANK_LENGTH < length log.now }
    ensures named { result ≡ version_of_header log.now }
    ensures known { IsVersion result }
{
    if log[VERSION_PLACE] == DIGIT_1 { 1 } else { 2 }
}

/// Whether the first frame of a log is sound as of a version.
fn begins_as(alloc: Global, log: &[u8], version: u8) -> Result<bool, NoMemory>
    requires long { BLANK_LENGTH < length log.now }
    requires known { IsVersion version }
    ensures { IfOk result (BeginsAs version log.now) }
{
    let mut counter = HistoryCounter::new(version);
    let ahead = look(alloc, &mut counter, log, FIRST_GATE as usize)?;
    Ok(ahead.is_sound())
}

/// The version as which a log is read.
pub(crate) fn version_of(alloc: Global, log: &[u8]) -> Result<u8, NoMemory>
    requires { BLANK_LENGTH < length log.now }
    ensures read { IfOk result (IsReadAs log.now) }
    ensures known { IfOk result IsVersion }
{
    if begins_as(alloc, log, 2)? {
        return Ok(2);
    }
    if begins_as(alloc, log, 1)? {
        return Ok(1);
    }
    Ok(named_version(log))
}

/// The first bytes of a log, up to a header's length, and those of a right header in place of what is missing.
fn filled_header(log: &[u8]) -> [u8; 16]
    ensures { result ≡ take 16 log.now ++ drop (length (take 16 log.now)) HEADER_2 }
{
    let count = log.len().min(HEADER_BYTES);
    let mut header = HEADER_2;
    header[..count].copy_from_slice(&log[..count]);
    header
}

/// The place of the first byte of a header that is as in neither version.
#[tactic(auto, using(crate::proofs::Headers::filled_same))]
pub(crate) fn wrong_place(log: &[u8]) -> Option<u64>
    ensures { result ≡ header_fault log.now }
{
    match header_version(&filled_header(log)) {
        Ok(_) => None,
        Err(place) => Some(place),
    }
}

/// Whether a closed gate stands behind a header.
pub(crate) fn has_closed_gate(log: &[u8]) -> bool
    ensures { result ≡ has_closed_gate log.now }
{
    log.len() > HEADER_BYTES && log[HEADER_BYTES] == CLOSED_GATE
}

/// The damage of a blank log with its first wrong byte, and whether a closed gate stands behind its header.
pub(crate) fn blank_damage(wrong: Option<u64>, is_closed: bool) -> Option<Damage>
    ensures { as_list result ≡ wrong_blank wrong is_closed }
{
    match wrong {
        Some(place) => Some(Damage {
            place,
            reason: Reason::WrongHeader,
        }),
        None if is_closed => None,
        None => Some(Damage {
            place: FIRST_GATE,
            reason: Reason::NoFrame,
        }),
    }
}

/// The damage of a header with its first wrong byte, and whether it names the version as which its log is read.
pub(crate) fn header_damage(wrong: Option<u64>, is_named: bool) -> Option<Damage>
    ensures { as_list result ≡ wrong_header wrong is_named }
{
    match wrong {
        Some(place) => Some(Damage {
            place,
            reason: Reason::WrongHeader,
        }),
        None if is_named => None,
        None => Some(Damage {
            place: VERSION_PLACE as u64,
            reason: Reason::WrongHeader,
        }),
    }
}
