//! The entries of a journal's frames, taken one behind the other.
ghost use Rattle.std.specs.Prelude.{◌≡◌, ◌≢◌, ◌↔◌, ◌++◌, ◌∷◌, ℕ, [], List, length, Some, None, IsTrue, IfOk, IfErr, OnOk};
ghost use Rattle.marc_types.specs.declared.entry.Entry.{Entry as AnyEntry};
ghost use Rattle.commit_journal.specs.Versions.{number_of};
ghost use Rattle.entry_record.specs.History.{IsWithin};
ghost use Rattle.entry_history.specs.Payloads.{IsHistory};
ghost use Rattle.entry_history.specs.Readers.{HasExtent};
ghost use Rattle.durable_catalogue.specs.declared.fault.OpenFault.TheVariants.{DeviceFault, NotAJournal, OldVersion, Full};
ghost use Rattle.durable_catalogue.specs.Loading.{IsUnreadBehind};
ghost use Rattle.commit_journal.specs.Log.{payloads_of};
ghost use Rattle.durable_catalogue.specs.Openings.{IsUnread};
ghost use Rattle.durable_catalogue.specs.Taking.{WereTaken, HasLeft, HandsFrameOn, TellsFit, ReadsPayload};

use crate::OpenFault;
use commit_journal::{Frame, FrameTaker, Version};
use entry_history::{EntryFault, HistoryCounter};
use entry_record::Prepared;
use marc_types::{Limits, NoMemory};
use std::alloc::{AllocError, Global};

/// What takes the entries of a history one behind the other.
pub trait EntryTaker {
    /// What it is, begun as the first one, when it has taken these entries.
    ghost has: { Self → Self → List AnyEntry → Type 0 };

    /// Takes the next entry, with what was prepared of it.
    fn take(&mut self, alloc: Global, item: Prepared) -> Result<(), NoMemory>
        ensures taken { OnOk result ((begun : Self) (before : List AnyEntry) → has begun self.old before → has begun self.new (before ++ item ∷ [])) };
}

/// A counter of a journal's entries, of which none was read.
pub(crate) fn counter_of(version: Version) -> HistoryCounter
    ensures version { result.version ≡ number_of version }
    ensures none { HasExtent [] result.extent }
    ensures count { result.extent.count ≡ 0 }
{
    HistoryCounter::new(version.number())
}

/// The entries of a journal's next frame, behind those of the frames before it.
fn read_frame(
    alloc: Global,
    counter: &mut HistoryCounter,
    frame: &Frame,
) -> Result<Vec<Prepared>, OpenFault>
    ensures read { IfOk result (λ items. ReadsPayload counter.old items.items frame.now.payload counter.new) }
    ensures version { counter.new.version ≡ counter.old.version }
    ensures fault { IfErr result (IsUnreadBehind counter.old frame.now) }
{
    let payload = frame.payload.as_slice();
    // so many bytes are in no memory
    if u64::MAX - counter.count() < payload.len() as u64 {
        return Err(OpenFault::NoMemory);
    }
    match counter.read(alloc, payload) {
        Ok(items) => Ok(items),
        Err(EntryFault::BadEntry) => Err(OpenFault::NotAJournal(frame.gate)),
        Err(EntryFault::NoMemory) => Err(OpenFault::NoMemory),
    }
}

/// What an entry leaves of so many bytes.
#[tactic(auto, using(entry_record::proofs::Sizes::left_more, entry_record::proofs::Sizes::left_passed, entry_record::proofs::Sizes::passed_more))]
fn left_behind(left: Option<u64>, item: &Prepared) -> Option<u64>
    ensures { (bytes : ℕ) (before : List AnyEntry) → HasLeft bytes before left → HasLeft bytes (before ++ item.now ∷ []) result }
{
    let size = item.size();
    match left {
        Some(left) if size <= left => Some(left - size),
        _ => None,
    }
}

/// Hands entries on, and takes their bytes off from those that are left.
fn hand_on<T: EntryTaker>(
    alloc: Global,
    items: Vec<Prepared>,
    taker: &mut T,
    left: &mut Option<u64>,
) -> Result<(), NoMemory>
    ensures taken { OnOk result ((begun : T) (before : List AnyEntry) → T.has begun taker.old before → T.has begun taker.new (before ++ items.items)) }
    ensures left { OnOk result ((bytes : ℕ) (before : List AnyEntry) → HasLeft bytes before left.old → HasLeft bytes (before ++ items.items) left.new) }
{
    for item in items {
        *left = left_behind(*left, &item);
        taker.take(alloc, item)?;
    }
    Ok(())
}

/// Whether so many entries, which leave that of the bytes, are within limits.
#[tactic(auto, using(entry_record::proofs::Sizes::within_both, entry_record::proofs::Sizes::within_few, entry_record::proofs::Sizes::within_short))]
fn are_within(limits: Limits, count: u64, left: Option<u64>) -> bool
    ensures { (entries : List AnyEntry) → HasLeft limits.bytes entries left → count ≡ length entries → IsTrue result ↔ IsWithin limits entries }
{
    count <= limits.entries && left.is_some()
}

/// What was read of a journal's frames: the run of the last entry, or 0, and whether the entries are within the limits.
#[derive(Clone, Copy, Debug, PartialEq, Eq)]
pub struct Reading {
    pub last_run: u64,
    pub fits: bool,
}

/// Hands on the entries of a journal's frames in their order. A frame is let go before the next is read.
fn take_each<T: EntryTaker>(
    alloc: Global,
    version: Version,
    frames: Vec<Frame>,
    limits: Limits,
    taker: &mut T,
) -> Result<Reading, OpenFault>
    requires none { T.has taker.old taker.old [] }
    ensures taken { IfOk result (WereTaken (T.has taker.old taker.new) (IsHistory (number_of version) [] (payloads_of frames.items)) limits) }
    ensures fault { IfErr result (IsUnread (number_of version) frames.items) }
{
    let mut counter = counter_of(version);
    let mut left = Some(limits.bytes);
    for frame in frames {
        let items = read_frame(alloc, &mut counter, &frame)?;
        let Ok(()) = hand_on(alloc, items, taker, &mut left) else {
            return Err(OpenFault::NoMemory);
        };
    }
    Ok(Reading {
        last_run: counter.last_run(),
        fits: are_within(limits, counter.count(), left),
    })
}

/// The same, with what its faults are not.
pub fn take_frames<T: EntryTaker>(
    alloc: Global,
    version: Version,
    frames: Vec<Frame>,
    limits: Limits,
    taker: &mut T,
) -> Result<Reading, OpenFault>
    requires none { T.has taker.old taker.old [] }
    ensures taken { IfOk result (WereTaken (T.has taker.old taker.new) (IsHistory (number_of version) [] (payloads_of frames.items)) limits) }
    ensures fault { IfErr result (IsUnread (number_of version) frames.items) }
    ensures current { IfErr result (λ fault. fault ≢ OldVersion) }
    ensures unfilled { IfErr result (λ fault. fault ≢ Full) }
    ensures no_device { IfErr result (λ fault. fault ≢ DeviceFault) }
{
    take_each(alloc, version, frames, limits, taker)
}

/// What takes entries and keeps none.
#[derive(Drop)]
pub struct Passing;

impl EntryTaker for Passing {
    ghost has = { λ begun passing entries. Unit {0} };

    fn take(&mut self, _alloc: Global, _item: Prepared) -> Result<(), NoMemory> {
        Ok(())
    }
}

/// Hands on the entries of a journal's next frame, behind those of the frames before it, and lets it go. Where its payload isn't valid it
/// answers the place of its gate.
fn take_frame<T: EntryTaker>(
    alloc: Global,
    counter: &mut HistoryCounter,
    frame: Frame,
    taker: &mut T,
    left: &mut Option<u64>,
) -> Result<Option<u64>, NoMemory>
    ensures { IfOk result (HandsFrameOn T.has taker.old taker.new frame counter.old counter.new left.old left.new) }
{
    match read_frame(alloc, counter, &frame) {
        Ok(items) => {
            hand_on(alloc, items, taker, left)?;
            Ok(None)
        }
        Err(OpenFault::NotAJournal(gate)) => Ok(Some(gate)),
        Err(_) => Err(NoMemory),
    }
}

/// Takes the frames of a journal as they are read, and hands on their entries, up to the first frame whose payload isn't valid. It keeps
/// no payload.
#[derive(Drop)]
pub(crate) struct FrameEntries<'a, T: EntryTaker> {
    pub(crate) taker: &'a mut T,
    pub(crate) counter: HistoryCounter,
    /// What is left of the bytes of the limits.
    pub(crate) left: Option<u64>,
    /// The gate of the first frame whose payload isn't valid: what comes behind it is let go.
    pub(crate) bad: Option<u64>,
}

impl<'a, T: EntryTaker> FrameTaker for FrameEntries<'a, T> {
    ghost use Rattle.std.specs.Prelude.{◌≡◌};
    ghost use Rattle.durable_catalogue.specs.Taking.{AreHandedOn};

    // It holds the same reference throughout: what is behind it at the end is what the lender gets back.
    ghost has = { λ begun now frames. (now.taker.ghost_name ≡ begun.taker.ghost_name)
        × AreHandedOn (T.has begun.taker.now now.taker.now) begun.counter.version begun.left frames now.counter now.left now.bad };

    fn take(&mut self, alloc: Global, frame: Frame) -> Result<(), AllocError> {
        if self.bad.is_some() {
            return Ok(());
        }
        match take_frame(alloc, &mut self.counter, frame, self.taker, &mut self.left) {
            Ok(bad) => {
                self.bad = bad;
                Ok(())
            }
            Err(NoMemory) => Err(AllocError),
        }
    }
}

/// What was read of all frames, so many entries, which leave that of the bytes of the limits; a fault where a payload wasn't valid.
#[tactic(auto, using(crate::proofs::Coming::fits_told))]
pub(crate) fn reading_of(
    counter: &HistoryCounter,
    left: Option<u64>,
    bad: Option<u64>,
    limits: Limits,
) -> Result<Reading, OpenFault>
    ensures last { IfOk result (λ reading. reading.last_run ≡ counter.now.extent.last_run) }
    ensures fits { IfOk result (λ reading. TellsFit limits left counter.now.extent.count reading.fits) }
    ensures whole { OnOk result (bad ≡ None) }
    ensures bad { IfErr result (λ fault. (gate : ℕ) × (bad ≡ Some gate) × (fault ≡ NotAJournal gate)) }
{
    if let Some(gate) = bad {
        return Err(OpenFault::NotAJournal(gate));
    }
    Ok(Reading {
        last_run: counter.last_run(),
        fits: are_within(limits, counter.count(), left),
    })
}
