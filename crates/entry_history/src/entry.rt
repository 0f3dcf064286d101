//! The reading of an entry of a payload.
ghost use Rattle.std.specs.Prelude.{◌≡◌, ◌≤◌, ◌<◌, None, IfSome, IfNone, IfOk, IfErr, IsTrue};
ghost use Rattle.marc_types.specs.Valid.{is_code};
ghost use Rattle.reading.specs.Reading.{IsReadAs};
ghost use Rattle.entry_record.specs.Admission.{admission_refusal};
ghost use Rattle.entry_record.specs.Prepared.{new_entry};
ghost use Rattle.entry_history.specs.Reading.{IsEntryHead, BeginWithNone, BeginWith, IsNotWritten, IsNoEntry};

use crate::EntryFault;
use crate::written::entry_part;
use commit_journal::{long_number, short_number};
use entry_record::Prepared;
use marc_types::{RecordFault, Text};
use reading::prepare;
use std::alloc::Global;

/// The ordinal and the written record of the entry with which bytes begin; of anything else whatever stands there.
fn entry_head(bytes: &[u8]) -> Option<(u64, &[u8])>
    ensures head { IfSome result (λ r. IsEntryHead bytes.now r.1.now r.0) }
    ensures none { IfNone result (BeginWithNone bytes.now) }
{
    let (ordinal, behind) = long_number(bytes)?;
    let (len, behind) = short_number(behind)?;
    let (written, _) = behind.split_at_checked(len as usize)?;
    Some((ordinal, written))
}

/// The entry of a record in its written form.
pub(crate) fn prepare_written(
    alloc: Global,
    written: &[u8],
    library: &Text,
    loader: u32,
    ordinal: u64,
) -> Result<Prepared, EntryFault>
    requires library { IsTrue (is_code library.now) }
    ensures ordinal { IfOk result (λ made. 1 ≤ ordinal) }
    ensures read { IfOk result (λ made. IsReadAs written.now made.rec.leader made.rec.fields) }
    ensures taken { IfOk result (λ made. admission_refusal library.now made.rec.leader made.rec.fields ≡ None) }
    ensures entry { IfOk result (λ made. made ≡ new_entry library.now loader ordinal made.rec) }
    ensures bad { IfErr result (IsNotWritten library.now ordinal written.now) }
{
    if ordinal == 0 {
        return Err(EntryFault::BadEntry);
    }
    match prepare(alloc, written, library, loader, ordinal) {
        Ok(item) => Ok(item),
        Err(RecordFault::Refused(_)) => Err(EntryFault::BadEntry),
        Err(RecordFault::NoMemory) => Err(EntryFault::NoMemory),
    }
}

/// The entry with which bytes begin, one of that run, loader and library, and what stands behind it.
pub fn read_entry<'a>(
    alloc: Global,
    bytes: &'a [u8],
    run: u64,
    loader: u32,
    library: &Text,
) -> Result<(Prepared, &'a [u8]), EntryFault>
    requires library { IsTrue (is_code library.now) }
    ensures read { IfOk result (λ r. BeginWith run loader library.now bytes.now r.0 r.1.now) }
    ensures bad { IfErr result (IsNoEntry run loader library.now bytes.now) }
{
    let Some((ordinal, written)) = entry_head(bytes) else {
        return Err(EntryFault::BadEntry);
    };
    let mut item = prepare_written(alloc, written, library, loader, ordinal)?;
    let part = entry_part(alloc, &item)?;
    let Some(rest) = bytes.strip_prefix(part.as_slice()) else {
        return Err(EntryFault::BadEntry);
    };
    item.set_run(run);
    Ok((item, rest))
}
