//! A log that was found on a disk, before anything is written to it.
ghost use Rattle.std.specs.Prelude.{◌≡◌, ◌≤◌, false, List, [], vec_len, IfOk, IfErr, MatchResult};
ghost use Rattle.outside.specs.Disk.{OnlyContent};
ghost use Rattle.outside.specs.Fault.{Rose};
ghost use Rattle.commit_journal.specs.declared.format.TheConstants.{FRAME_ROOM};
ghost use Rattle.commit_journal.specs.declared.frame.Frame.{Frame as AnyFrame};
ghost use Rattle.commit_journal.specs.Journal.{IsFound, IsRecovered, IsSettling, Opens, HasOpenCause, Unwritten};
ghost use Rattle.commit_journal.specs.Reading.{IsReadAt};
ghost use Rattle.commit_journal.specs.Taking.{IsFoundFrom};
ghost use Rattle.commit_journal.specs.Versions.{number_of};

use crate::begun::begin_on;
use crate::format::FRAME_ROOM;
use crate::frame::Frames;
use crate::journal::Journal;
use crate::reading::{LogEnd, take_log, zeros};
use crate::settling::bring_into_order;
use crate::taker::{FrameTaker, KeptFrames};
use crate::{DeviceFault, JournalFault, Version};
use outside::Disk;
use std::alloc::Global;

/// Finds a log that a crash may have left, hands on its frames up to the first closed gate as they are read, and answers where it ends.
/// It syncs and reads, and writes nothing. No two frames are in memory, but what the taker keeps. A fault may come behind any front of
/// the frames.
pub fn find_each<D: Disk, T: FrameTaker>(
    alloc: Global,
    disk: &mut D,
    taker: &mut T,
) -> Result<LogEnd, JournalFault>
    requires none { T.has taker.old taker.old [] }
    // The taker has the log's frames.
    ensures found { IfOk result (λ end. IsFoundFrom (T.has taker.old taker.new) end.place (number_of end.version) (D.seen disk.old) (D.seen disk.new)) }

    // Whatever it answers, every byte is as it was, and so is each image since a first sync that succeeded.
    ensures unwritten { Unwritten (D.seen disk.old) (D.seen disk.new) }
    ensures opens { Opens (D.seen disk.old) (D.seen disk.new) }
    ensures later { (D.seen disk.old).faults ≤ (D.seen disk.new).faults }
    ensures fault { IfErr result (HasOpenCause (D.seen disk.old) (D.seen disk.new)) }
{
    let version = begin_on(disk)?;
    let place = take_log(alloc, disk, taker)?;
    Ok(LogEnd { place, version })
}

/// Takes the room for one frame, and finds the log, whose frames are handed on.
fn look<D: Disk, T: FrameTaker>(
    alloc: Global,
    disk: &mut D,
    taker: &mut T,
) -> Result<(Vec<u8>, LogEnd), JournalFault>
    requires none { T.has taker.old taker.old [] }
    ensures room { IfOk result (λ r. vec_len r.0 ≡ FRAME_ROOM) }
    ensures found { IfOk result (λ r. IsFoundFrom (T.has taker.old taker.new) r.1.place (number_of r.1.version) (D.seen disk.old) (D.seen disk.new)) }
    ensures unwritten { Unwritten (D.seen disk.old) (D.seen disk.new) }
    ensures opens { Opens (D.seen disk.old) (D.seen disk.new) }
    ensures later { (D.seen disk.old).faults ≤ (D.seen disk.new).faults }
    ensures fault { IfErr result (HasOpenCause (D.seen disk.old) (D.seen disk.new)) }
{
    let buffer = zeros(alloc, FRAME_ROOM)?;
    let end = find_each(alloc, disk, taker)?;
    Ok((buffer, end))
}

/// A log that was found on a disk, which was synced and read. Nothing was written to it, so it can be left as it was; once it is settled
/// it is a journal.
#[derive(Drop)]
pub struct FoundLog<D: Disk> {
    pub(crate) disk: D,
    // Room for one frame and the gate behind it.
    pub(crate) buffer: Vec<u8>,
    // The place of the first closed gate.
    pub(crate) place: u64,
    pub(crate) version: Version,
    ghost room: { vec_len buffer ≡ FRAME_ROOM },
    ghost only: { OnlyContent (D.seen disk) },
    ghost read: { IsReadAt place (number_of version) (D.seen disk) },
}

impl<D: Disk> FoundLog<D> {
    /// Finds a log that a crash may have left, and hands its frames on, up to the first closed gate, as they are read. It syncs and reads,
    /// and writes nothing. A fault hands the disk back; any front of the frames was then handed on.
    pub fn find_with<T: FrameTaker>(
        alloc: Global,
        disk: D,
        taker: &mut T,
    ) -> Result<Self, (D, JournalFault)>
        requires none { T.has taker.old taker.old [] }
        // The taker has the log's frames.
        ensures found { IfOk result (λ f. IsFoundFrom (T.has taker.old taker.new) f.place (number_of f.version) (D.seen disk) (D.seen f.disk)) }

        // Whatever it answers, every byte is as it was, and so is each image since a first sync that succeeded.
        ensures unwritten { MatchResult result (λ f. Unwritten (D.seen disk) (D.seen f.disk)) (λ e. Unwritten (D.seen disk) (D.seen e.0)) }
        ensures crash { MatchResult result (λ f. Opens (D.seen disk) (D.seen f.disk)) (λ e. Opens (D.seen disk) (D.seen e.0)) }
        ensures later { MatchResult result (λ f. (D.seen disk).faults ≤ (D.seen f.disk).faults) (λ e. (D.seen disk).faults ≤ (D.seen e.0).faults) }
        ensures fault { IfErr result (λ e. HasOpenCause (D.seen disk) (D.seen e.0) e.1) }
    {
        let mut disk = disk;
        match look(alloc, &mut disk, taker) {
            Ok((buffer, end)) => Ok(FoundLog {
                disk,
                buffer,
                place: end.place,
                version: end.version,
            }),
            Err(fault) => Err((disk, fault)),
        }
    }

    /// The same, and its frames are kept.
    pub fn find(alloc: Global, disk: D) -> Result<(Self, Frames), (D, JournalFault)>
        // The frames are the log's.
        ensures found { IfOk result (λ r. IsFound r.1 r.0.place (number_of r.0.version) (D.seen disk) (D.seen r.0.disk)) }
        ensures unwritten { MatchResult result (λ r. Unwritten (D.seen disk) (D.seen r.0.disk)) (λ e. Unwritten (D.seen disk) (D.seen e.0)) }
        ensures crash { MatchResult result (λ r. Opens (D.seen disk) (D.seen r.0.disk)) (λ e. Opens (D.seen disk) (D.seen e.0)) }
        ensures later { MatchResult result (λ r. (D.seen disk).faults ≤ (D.seen r.0.disk).faults) (λ e. (D.seen disk).faults ≤ (D.seen e.0).faults) }
        ensures fault { IfErr result (λ e. HasOpenCause (D.seen disk) (D.seen e.0) e.1) }
    {
        let mut kept = KeptFrames {
            items: Vec::new(alloc),
        };
        match FoundLog::find_with(alloc, disk, &mut kept) {
            Ok(found) => Ok((found, Frames::from_vec(kept.items))),
            Err(failed) => Err(failed),
        }
    }

    /// The version of the log, the newest where it is blank.
    pub fn version(&self) -> Version
        ensures { result ≡ self.now.version }
    {
        self.version
    }

    /// Gives the disk back, with every byte as it was.
    pub fn leave(self) -> D
        ensures { result ≡ self.disk }
    {
        let found = self;
        found.disk
    }

    /// Brings the log into order: it cuts off what stands behind the first closed gate, and syncs; a log of 17 bytes or fewer is written
    /// anew. A crash meanwhile leaves the same log. A fault hands the disk back.
    pub fn settle(self) -> Result<Journal<D>, (D, DeviceFault)>
        // The frames are those that were found on the disk as it was before, and the log is settled.
        ensures recovered { IfOk result (λ j. (before : D) (frames : List AnyFrame) → IsFound frames self.place (number_of self.version) (D.seen before) (D.seen self.disk)
            → IsRecovered frames j.place (number_of j.version) (D.seen before) (D.seen j.disk)) }
        ensures whole { IfOk result (λ j. j.broken ≡ false) }
        ensures version { IfOk result (λ j. j.version ≡ self.version) }

        // Each image since the first sync is the same log, and so is the content, whatever it answers.
        ensures crash { (before : D) (frames : List AnyFrame) → IsFound frames self.place (number_of self.version) (D.seen before) (D.seen self.disk)
            → MatchResult result (λ j. IsSettling (D.seen before) (D.seen j.disk)) (λ e. IsSettling (D.seen before) (D.seen e.0)) }

        // It fails only where the count of faults rose.
        ensures later { MatchResult result (λ j. (D.seen self.disk).faults ≤ (D.seen j.disk).faults) (λ e. (D.seen self.disk).faults ≤ (D.seen e.0).faults) }
        ensures cause { IfErr result (λ e. Rose (D.seen self.disk).faults (D.seen e.0).faults) }
    {
        let FoundLog {
            disk,
            buffer,
            place,
            version,
            ..
        } = self;
        let mut disk = disk;
        let settled = bring_into_order(&mut disk, place);
        match settled {
            Ok(()) => Ok(Journal {
                disk,
                buffer,
                place,
                version,
                broken: false,
            }),
            Err(_) => Err((disk, DeviceFault)),
        }
    }
}
