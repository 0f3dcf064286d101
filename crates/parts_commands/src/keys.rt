//! The keys of neighbouring records of two exports.
ghost use Rattle.std.specs.Prelude.{◌≡◌, ◌↔◌, None, IsTrue, IfOk, IfSome};
ghost use Rattle.marc_types.specs.declared.key.Key.{Key};
ghost use Rattle.parts_commands.specs.Exports.{is_authority, TellsKey, MayFollow};

use entry_record::key_of;
use marc_types::{Key, NoMemory, RecordFault, Text};
use reading::read_record;
use std::alloc::Global;

/// Where a record's type stands in its leader.
const RECORD_TYPE: usize = 6;

const AUTHORITY_DATA: u8 = b'z';

/// Whether a piece is that of an authority.
pub(crate) fn is_authority(piece: &[u8]) -> bool
    ensures { result ≡ is_authority piece.now }
{
    piece.len() > RECORD_TYPE && piece[RECORD_TYPE] == AUTHORITY_DATA
}

/// The key that a piece tells by itself, where it tells one.
fn told_key(alloc: Global, piece: &[u8]) -> Result<Option<Key>, NoMemory>
    ensures is { IfOk result (λ told. IfSome told (TellsKey piece.now)) }
    ensures none { IfOk result (λ told. told ≡ None → (key : Key) → TellsKey piece.now key → ⊥) }
{
    let rec = match read_record(alloc, piece) {
        Ok(rec) => rec,
        Err(RecordFault::Refused(_)) => return Ok(None),
        Err(RecordFault::NoMemory) => return Err(NoMemory),
    };
    // A record without 003 has the empty code then, which is refused.
    match key_of(alloc, &rec, &Text::new()) {
        Ok(key) => Ok(Some(key)),
        Err(RecordFault::Refused(_)) => Ok(None),
        Err(RecordFault::NoMemory) => Err(NoMemory),
    }
}

/// Whether a piece may stand behind another.
pub(crate) fn may_follow(alloc: Global, one: &[u8], other: &[u8]) -> Result<bool, NoMemory>
    ensures { IfOk result (λ may. IsTrue may ↔ MayFollow one.now other.now) }
{
    let Some(one) = told_key(alloc, one)? else {
        return Ok(true);
    };
    let Some(other) = told_key(alloc, other)? else {
        return Ok(true);
    };
    Ok(one < other)
}
