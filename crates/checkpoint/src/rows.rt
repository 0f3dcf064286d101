//! The reading of kept records.
ghost use Rattle.std.specs.Prelude.{IfOk, IfErr};
ghost use Rattle.checkpoint.specs.Format.{row_bytes};
ghost use Rattle.checkpoint.specs.Parts.{IsKeptRow};
ghost use Rattle.checkpoint.specs.Fronts.{BeginWith, IsNoFront};
ghost use Rattle.checkpoint.specs.Reading.{AreRows, AreNoRows};

use crate::PartFault;
use crate::heads::{own_key, read_head, read_written};
use crate::ties::read_ties;
use kept_rows::KeptRow;
use marc_types::Links;
use std::alloc::Global;

/// The kept record with which bytes begin, and what stands behind it.
fn read_row(alloc: Global, bytes: &[u8]) -> Result<(KeptRow, &[u8]), PartFault>
    ensures read { IfOk result (λ r. BeginWith row_bytes IsKeptRow bytes.now r.0 r.1.now) }
    ensures bad { IfErr result (IsNoFront row_bytes IsKeptRow bytes.now) }
{
    let Some(head) = read_head(bytes) else {
        return Err(PartFault::BadPart);
    };
    let (rec, written) = read_written(alloc, head.written)?;
    let key = own_key(alloc, head.code, &rec)?;
    let (ties, rest) = read_ties(alloc, head.rest, rec.fields.len())?;
    let row = KeptRow {
        class: head.class,
        key,
        rec: written,
        ties: Links::from_vec(ties),
    };
    Ok((row, rest))
}

/// The kept records that bytes are.
pub(crate) fn read_rows(alloc: Global, bytes: &[u8]) -> Result<Vec<KeptRow>, PartFault>
    ensures read { IfOk result (λ rows. AreRows bytes.now rows.items) }
    ensures bad { IfErr result (AreNoRows bytes.now) }
{
    let mut rows = Vec::new(alloc);
    let mut rest = bytes;
    while !rest.is_empty() {
        let (row, behind) = read_row(alloc, rest)?;
        rows.push(row)?;
        rest = behind;
    }
    Ok(rows)
}
