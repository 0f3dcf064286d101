//! What a journal has of a history already.
ghost use Rattle.std.specs.Prelude.{◌≡◌, ◌≢◌, ◌≤◌, ◌↔◌, All, List, [], length, drop, IsTrue, IfOk, IfErr, OnOk};
ghost use Rattle.marc_types.specs.declared.entry.Entry.{Entry as AnyEntry};
ghost use Rattle.commit_journal.specs.Versions.{number_of};
ghost use Rattle.entry_record.specs.History.{IsWithin};
ghost use Rattle.entry_history.specs.Payloads.{IsHistory};
ghost use Rattle.commit_journal.specs.Log.{payloads_of};
ghost use Rattle.migrate_command.specs.Fronts.{ArePayloads, HoldsBut, HoldsFront, HoldNoFront};
ghost use Rattle.commit_journal.specs.Journal.{IsPayload};
ghost use Rattle.migrate_command.specs.Migrations.{Begins};
ghost use Rattle.migrate_command.specs.declared.fault.MigrateFault.TheVariants.{DeviceFault};

use crate::MigrateFault;
use crate::fault::migrate_opening;
use commit_journal::{Frame, Version};
use durable_catalogue::{EntryTaker, take_frames};
use entry_history::EntryPayload;
use entry_record::Prepared;
use marc_types::{Limits, NoMemory};
use outside::Bytes;
use std::alloc::Global;

/// The entries of a history, kept.
#[derive(Drop)]
struct KeptEntries {
    items: Vec<Prepared>,
}

impl EntryTaker for KeptEntries {
    ghost use Rattle.std.specs.Prelude.{◌≡◌};

    ghost has = { λ begun kept entries. kept.items.items ≡ entries };

    fn take(&mut self, _alloc: Global, item: Prepared) -> Result<(), NoMemory> {
        self.items.push(item)?;
        Ok(())
    }
}

/// The entries of a journal's frames, in their order, and whether they are within the limits.
fn read_history(
    alloc: Global,
    version: Version,
    frames: Vec<Frame>,
    limits: Limits,
) -> Result<(Vec<Prepared>, bool), MigrateFault>
    ensures history { IfOk result (λ r. IsHistory (number_of version) [] (payloads_of frames.items) r.0.items) }
    ensures fits { IfOk result (λ r. IsTrue r.1 ↔ IsWithin limits r.0.items) }
    ensures fault { IfErr result (λ fault. (history : List AnyEntry) → HoldNoFront (number_of version) frames.items limits history fault) }
    ensures no_device { IfErr result (λ fault. fault ≢ DeviceFault) }
{
    let mut kept = KeptEntries {
        items: Vec::new(alloc),
    };
    match take_frames(alloc, version, frames, limits, &mut kept) {
        Ok(reading) => Ok((kept.items, reading.fits)),
        Err(fault) => Err(migrate_opening(fault)),
    }
}

/// Whether a history begins with the entries of these items.
fn begins(alloc: Global, history: &[EntryPayload], items: &[Prepared]) -> Result<bool, NoMemory>
    ensures { IfOk result (λ told. IsTrue told ↔ Begins history.now items.now) }
{
    for (at, item) in items.iter().enumerate() {
        let Some(entry) = history.get(at) else {
            return Ok(false);
        };
        let same = entry.is_of(alloc, item)?;
        if !same {
            return Ok(false);
        }
    }
    Ok(true)
}

/// How many entries of a history the frames of a journal hold, which hold nothing else.
fn front_of(
    alloc: Global,
    version: Version,
    frames: Vec<Frame>,
    history: &[EntryPayload],
    limits: &Limits,
) -> Result<usize, MigrateFault>
    requires { IsWithin limits.now history.now }
    ensures front { IfOk result (HoldsFront (number_of version) frames.items limits.now history.now) }
    ensures within { IfOk result (λ count. count ≤ length history.now) }
    ensures version { OnOk result (version ≡ Version.Two) }
    ensures fault { IfErr result (HoldNoFront (number_of version) frames.items limits.now history.now) }
    ensures no_device { IfErr result (λ fault. fault ≢ DeviceFault) }
{
    let (items, fits) = read_history(alloc, version, frames, *limits)?;
    if version != Version::Two {
        return Err(MigrateFault::OldVersion);
    }
    if !fits {
        return Err(MigrateFault::Full);
    }
    let Ok(begun) = begins(alloc, history, items.as_slice()) else {
        return Err(MigrateFault::NoMemory);
    };
    if !begun {
        return Err(MigrateFault::NotPrefix);
    }
    Ok(items.len())
}

/// What a history has behind its first entries.
fn behind(history: Vec<EntryPayload>, count: usize) -> Vec<EntryPayload>
    requires { count ≤ length history.items }
    ensures { result.items ≡ drop count history.items }
{
    let mut rest = history;
    let left = rest.len() - count;
    rest.rotate_left(count);
    rest.truncate(left);
    rest
}

/// Gives up the payloads of entries.
fn payloads_of_all(alloc: Global, entries: Vec<EntryPayload>) -> Result<Vec<Bytes>, NoMemory>
    ensures { IfOk result (λ payloads. ArePayloads entries.items payloads.items) }
{
    let mut payloads = Vec::new(alloc);
    for entry in entries {
        payloads.push(entry.into_payload())?;
    }
    Ok(payloads)
}

/// Gives up the payloads of what a history has behind its first entries.
fn payloads_behind(
    alloc: Global,
    history: Vec<EntryPayload>,
    count: usize,
) -> Result<Vec<Bytes>, NoMemory>
    requires { count ≤ length history.items }
    ensures { IfOk result (λ payloads. ArePayloads (drop count history.items) payloads.items) }
{
    payloads_of_all(alloc, behind(history, count))
}

/// The payloads of what a history has behind those entries that the frames of a journal hold, which hold nothing else. They are the
/// history's own, and are given up.
pub fn rest_of(
    alloc: Global,
    version: Version,
    frames: Vec<Frame>,
    history: Vec<EntryPayload>,
    limits: &Limits,
) -> Result<Vec<Bytes>, MigrateFault>
    requires { IsWithin limits.now history.items }
    ensures rest { IfOk result (λ payloads. HoldsBut (number_of version) frames.items limits.now history.items payloads.items) }
    ensures fit { IfOk result (λ payloads. All IsPayload payloads.items) }
    ensures version { OnOk result (version ≡ Version.Two) }
    ensures fault { IfErr result (HoldNoFront (number_of version) frames.items limits.now history.items) }
    ensures no_device { IfErr result (λ fault. fault ≢ DeviceFault) }
{
    let count = front_of(alloc, version, frames, history.as_slice(), limits)?;
    match payloads_behind(alloc, history, count) {
        Ok(payloads) => Ok(payloads),
        Err(NoMemory) => Err(MigrateFault::NoMemory),
    }
}
