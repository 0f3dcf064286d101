//! The reading of a payload.
ghost use Rattle.std.specs.Prelude.{◌≡◌, ◌≢◌, ◌<◌, ◌^◌, ◌∷◌, ◌++◌, length, IfSome, IfNone, IfOk, IfErr};
ghost use Rattle.std.specs.Int.{w64, to_be_bytes};
ghost use Rattle.checkpoint.specs.Parts.{IsPartOf};
ghost use Rattle.checkpoint.specs.Reading.{IsNoPart};

use crate::rows::read_rows;
use crate::{Part, PartFault};
use commit_journal::long_number;
use kept_rows::KeptRows;
use std::alloc::Global;

/// What a payload begins with that begins a checkpoint, brings kept records, or ends a checkpoint.
pub(crate) const BEGIN: u8 = b'S';

pub(crate) const ROWS: u8 = b'R';

pub(crate) const END: u8 = b'E';

/// The beginning of a checkpoint, behind its first byte.
fn read_begin(bytes: &[u8]) -> Result<Part, PartFault>
    ensures part { IfOk result (IsPartOf (0x53 ∷ bytes.now)) }
    ensures bad { IfErr result (IsNoPart (0x53 ∷ bytes.now)) }
{
    if bytes.is_empty() {
        Ok(Part::Begin)
    } else {
        Err(PartFault::BadPart)
    }
}

/// Kept records, behind the first byte.
fn read_rows_part(alloc: Global, bytes: &[u8]) -> Result<Part, PartFault>
    ensures part { IfOk result (IsPartOf (0x52 ∷ bytes.now)) }
    ensures bad { IfErr result (IsNoPart (0x52 ∷ bytes.now)) }
{
    if bytes.is_empty() {
        return Err(PartFault::BadPart);
    }
    let rows = read_rows(alloc, bytes)?;
    Ok(Part::Rows(KeptRows::from_vec(rows)))
}

fn two_numbers(bytes: &[u8]) -> Option<(u64, u64)>
    ensures found { IfSome result (λ r. to_be_bytes w64 r.0 ++ to_be_bytes w64 r.1 ≡ bytes.now) }
    ensures fits { IfSome result (λ r. (r.0 < 2 ^ 64) × (r.1 < 2 ^ 64)) }
    ensures none { IfNone result (length bytes.now ≢ 16) }
{
    let (first, behind) = long_number(bytes)?;
    let (second, rest) = long_number(behind)?;
    if rest.is_empty() {
        Some((first, second))
    } else {
        None
    }
}

/// The end of a checkpoint, behind its first byte.
fn read_end(bytes: &[u8]) -> Result<Part, PartFault>
    ensures part { IfOk result (IsPartOf (0x45 ∷ bytes.now)) }
    ensures bad { IfErr result (IsNoPart (0x45 ∷ bytes.now)) }
{
    match two_numbers(bytes) {
        Some((entries, count)) => Ok(Part::End { entries, count }),
        None => Err(PartFault::BadPart),
    }
}

/// What a payload is. `BadPart` comes exactly where it is of none of the three sorts.
pub fn read_part(alloc: Global, payload: &[u8]) -> Result<Part, PartFault>
    ensures part { IfOk result (IsPartOf payload.now) }
    ensures bad { IfErr result (IsNoPart payload.now) }
{
    let Some((first, behind)) = payload.split_first() else {
        return Err(PartFault::BadPart);
    };
    match *first {
        BEGIN => read_begin(behind),
        ROWS => read_rows_part(alloc, behind),
        END => read_end(behind),
        _ => Err(PartFault::BadPart),
    }
}
