//! The reading of a payload of version 1.
ghost use Rattle.std.specs.Prelude.{◌≡◌, ◌≤◌, ◌↔◌, length, IfSome, IfNone, IfOk, IfErr, IsTrue};
ghost use Rattle.iso2709_record.specs.Written.{record_bytes};
ghost use Rattle.entry_history.specs.Payloads.{HoldsOld};
ghost use Rattle.entry_history.specs.Reading.{IsOldHead, BeginOld, BeginWithNoOld, IsNoOldEntry, IsOldItem, AreOld, AreNoOld, HoldsNoneOld};

use crate::EntryFault;
use crate::entry::prepare_written;
use crate::lengths::{coded, sized};
use crate::payload::{is_count, read_library};
use commit_journal::{long_number, short_number};
use entry_record::Prepared;
use iso2709_record::encode_vec;
use marc_types::NoMemory;
use std::alloc::Global;

/// What stands before an entry's end, and what stands behind it.
#[derive(Drop)]
struct Head<'a> {
    loader: u32,
    ordinal: u64,
    library: &'a [u8],
    written: &'a [u8],
    rest: &'a [u8],
}

fn read_head(bytes: &[u8]) -> Option<Head<'_>>
    ensures head { IfSome result (λ h. IsOldHead bytes.now h.loader h.ordinal h.library.now h.written.now h.rest.now) }
    ensures none { IfNone result (BeginWithNoOld bytes.now) }
{
    let (loader, behind) = short_number(bytes)?;
    let (ordinal, behind) = long_number(behind)?;
    let (library, behind) = coded(behind)?;
    let (written, rest) = sized(behind)?;
    Some(Head {
        loader,
        ordinal,
        library,
        written,
        rest,
    })
}

#[tactic(auto, using(entry_record::proofs::Admitted::same_fits))]
fn is_written(alloc: Global, item: &Prepared, written: &[u8]) -> Result<bool, NoMemory>
    ensures { IfOk result (λ told. IsTrue told ↔ (record_bytes item.now.rec.leader item.now.rec.fields ≡ written.now)) }
{
    let bytes = encode_vec(alloc, &item.entry().rec)?;
    Ok(bytes.as_slice() == written)
}

/// Whether an item stands under its library's code and is written so.
fn is_old_item(alloc: Global, item: &Prepared, written: &[u8]) -> Result<bool, NoMemory>
    ensures { IfOk result (λ told. IsTrue told ↔ IsOldItem written.now item.now) }
{
    let entry = item.entry();
    if entry.key.code != entry.library {
        return Ok(false);
    }
    is_written(alloc, item, written)
}

/// The entry with which bytes begin, and what stands behind it.
fn read_entry(alloc: Global, bytes: &[u8]) -> Result<(Prepared, &[u8]), EntryFault>
    ensures read { IfOk result (λ r. BeginOld bytes.now r.0 r.1.now) }
    ensures bad { IfErr result (IsNoOldEntry bytes.now) }
{
    let Some(head) = read_head(bytes) else {
        return Err(EntryFault::BadEntry);
    };
    let library = read_library(alloc, head.library)?;
    let item = prepare_written(alloc, head.written, &library, head.loader, head.ordinal)?;
    let is_old = is_old_item(alloc, &item, head.written)?;
    if !is_old {
        return Err(EntryFault::BadEntry);
    }
    Ok((item, head.rest))
}

/// The entries that bytes are, so many.
fn read_entries(alloc: Global, bytes: &[u8], count: u8) -> Result<Vec<Prepared>, EntryFault>
    ensures read { IfOk result (λ items. AreOld count bytes.now items.items) }
    ensures bad { IfErr result (AreNoOld count bytes.now) }
{
    let mut items = Vec::new(alloc);
    let mut rest = bytes;
    for _done in 0..count {
        let (item, behind) = read_entry(alloc, rest)?;
        items.push(item)?;
        rest = behind;
    }
    if !rest.is_empty() {
        return Err(EntryFault::BadEntry);
    }
    Ok(items)
}

/// The entries of a payload of version 1.
pub fn read_payload(alloc: Global, payload: &[u8]) -> Result<Vec<Prepared>, EntryFault>
    ensures holds { IfOk result (λ items. HoldsOld items.items payload.now) }
    ensures few { IfOk result (λ items. length items.items ≤ length payload.now) }
    ensures bad { IfErr result (HoldsNoneOld payload.now) }
{
    let Some((count, bytes)) = payload.split_first() else {
        return Err(EntryFault::BadEntry);
    };
    if !is_count(*count) {
        return Err(EntryFault::BadEntry);
    }
    let items = read_entries(alloc, bytes, *count)?;
    Ok(items)
}
