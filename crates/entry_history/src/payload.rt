//! The reading of a payload.
ghost use Rattle.std.specs.Prelude.{◌≡◌, ◌≤◌, ◌↔◌, true, List, length, IfSome, IfNone, IfOk, OnOk, IfErr, IsTrue};
ghost use Rattle.marc_types.specs.Valid.{is_code};
ghost use Rattle.entry_history.specs.Payloads.{IsCount, HoldsNow};
ghost use Rattle.marc_types.specs.declared.entry.Entry.{Entry as AnyEntry};
ghost use Rattle.entry_history.specs.Readers.{HasExtent};
ghost use Rattle.entry_history.specs.Reading.{AreEntries, AreNoEntries, HasHead, HasNoHead, HoldsNoneNow, IsNoCode};

use crate::EntryFault;
use crate::entry::read_entry;
use crate::extent::Extent;
use commit_journal::{long_number, short_number};
use entry_record::Prepared;
use marc_types::{Text, can_be_code};
use outside::LARGEST_BATCH;
use std::alloc::Global;

/// What stands before the entries of a payload, and their bytes.
#[derive(Drop)]
struct Head<'a> {
    run: u64,
    loader: u32,
    library: &'a [u8],
    count: u8,
    entries: &'a [u8],
}

fn read_head(payload: &[u8]) -> Option<Head<'_>>
    ensures head { IfSome result (λ h. HasHead payload.now h.run h.loader h.library.now h.count h.entries.now) }
    ensures none { IfNone result (HasNoHead payload.now) }
{
    let (run, behind) = long_number(payload)?;
    let (loader, behind) = short_number(behind)?;
    let (len, behind) = behind.split_first()?;
    let (library, behind) = behind.split_at_checked(*len as usize)?;
    let (count, entries) = behind.split_first()?;
    Some(Head {
        run,
        loader,
        library,
        count: *count,
        entries,
    })
}

/// A library code.
pub(crate) fn read_library(alloc: Global, bytes: &[u8]) -> Result<Text, EntryFault>
    ensures library { IfOk result (λ library. library ≡ bytes.now) }
    ensures code { OnOk result (is_code bytes.now ≡ true) }
    ensures bad { IfErr result (IsNoCode bytes.now) }
{
    if !can_be_code(bytes) {
        return Err(EntryFault::BadEntry);
    }
    match std::str::from_utf8(bytes) {
        Ok(text) => Ok(Text::from_str(alloc, text)?),
        Err(_) => Err(EntryFault::BadEntry),
    }
}

pub(crate) fn is_count(count: u8) -> bool
    ensures { IsTrue result ↔ IsCount count }
{
    count != 0 && u32::from(count) <= LARGEST_BATCH
}

/// The entries that bytes are, so many of one run, loader and library.
fn read_entries(
    alloc: Global,
    bytes: &[u8],
    count: u8,
    run: u64,
    loader: u32,
    library: &Text,
) -> Result<Vec<Prepared>, EntryFault>
    requires library { IsTrue (is_code library.now) }
    ensures read { IfOk result (λ items. AreEntries run loader library.now count bytes.now items.items) }
    ensures bad { IfErr result (AreNoEntries run loader library.now count bytes.now) }
{
    let mut items = Vec::new(alloc);
    let mut rest = bytes;
    for _done in 0..count {
        let (item, behind) = read_entry(alloc, rest, run, loader, library)?;
        items.push(item)?;
        rest = behind;
    }
    if !rest.is_empty() {
        return Err(EntryFault::BadEntry);
    }
    Ok(items)
}

/// The entries of a payload of version 2 that follows so many.
pub fn read_payload(
    alloc: Global,
    extent: Extent,
    payload: &[u8],
) -> Result<Vec<Prepared>, EntryFault>
    ensures holds { IfOk result (λ items. (before : List AnyEntry) → HasExtent before extent → HoldsNow before items.items payload.now) }
    ensures few { IfOk result (λ items. length items.items ≤ length payload.now) }
    ensures bad { IfErr result (λ fault. (before : List AnyEntry) → HasExtent before extent → HoldsNoneNow before payload.now fault) }
{
    let Some(head) = read_head(payload) else {
        return Err(EntryFault::BadEntry);
    };
    if !is_count(head.count) {
        return Err(EntryFault::BadEntry);
    }
    if !extent.can_follow(head.run) {
        return Err(EntryFault::BadEntry);
    }
    let library = read_library(alloc, head.library)?;
    let items = read_entries(
        alloc,
        head.entries,
        head.count,
        head.run,
        head.loader,
        &library,
    )?;
    Ok(items)
}
