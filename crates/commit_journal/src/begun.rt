//! A log that was begun, before its frames are read.
ghost use Rattle.std.specs.Prelude.{◌≡◌, ◌≤◌, ℕ, true, List, [], Some, is_some, vec_len, IfOk, IfErr, OnOk};
ghost use Rattle.outside.specs.Disk.{OnlyContent, Unchanged};
ghost use Rattle.commit_journal.specs.declared.format.TheConstants.{FRAME_ROOM};
ghost use Rattle.commit_journal.specs.Begun.{IsBegun, IsUnfound};
ghost use Rattle.commit_journal.specs.Journal.{Opens, HasOpenCause, Unwritten};
ghost use Rattle.commit_journal.specs.Log.{version_of};
ghost use Rattle.commit_journal.specs.Reading.{HasHeader};
ghost use Rattle.commit_journal.specs.Taking.{IsTakenFrom};
ghost use Rattle.commit_journal.specs.Versions.{number_of};

use crate::format::FRAME_ROOM;
use crate::found::FoundLog;
use crate::reading::{read_version, take_log, zeros};
use crate::taker::FrameTaker;
use crate::{JournalFault, Version};
use outside::Disk;
use std::alloc::Global;

/// Syncs a disk, and reads the version of its log, the newest where it is blank.
pub fn begin_on<D: Disk>(disk: &mut D) -> Result<Version, JournalFault>
    ensures header { IfOk result (λ version. HasHeader (number_of version) (D.seen disk.new)) }
    ensures only { OnOk result (OnlyContent (D.seen disk.new)) }
    ensures synced { OnOk result ((D.seen disk.old).dated ≡ true → is_some ((D.seen disk.new).synced (D.seen disk.old).moment) ≡ true) }

    // Whatever it answers, every byte is as it was, and so is each image since a first sync that succeeded.
    ensures unwritten { Unwritten (D.seen disk.old) (D.seen disk.new) }
    ensures opens { Opens (D.seen disk.old) (D.seen disk.new) }
    ensures later { (D.seen disk.old).faults ≤ (D.seen disk.new).faults }
    ensures fault { IfErr result (HasOpenCause (D.seen disk.old) (D.seen disk.new)) }
{
    disk.sync()?;
    let version = read_version(disk)?;
    Ok(version)
}

/// The same, with the room for one frame, which is taken first.
fn begin_with_room<D: Disk>(alloc: Global, disk: &mut D) -> Result<(Vec<u8>, Version), JournalFault>
    ensures room { IfOk result (λ r. vec_len r.0 ≡ FRAME_ROOM) }
    ensures header { IfOk result (λ r. HasHeader (number_of r.1) (D.seen disk.new)) }
    ensures only { OnOk result (OnlyContent (D.seen disk.new)) }
    ensures synced { OnOk result ((D.seen disk.old).dated ≡ true → is_some ((D.seen disk.new).synced (D.seen disk.old).moment) ≡ true) }
    ensures unwritten { Unwritten (D.seen disk.old) (D.seen disk.new) }
    ensures opens { Opens (D.seen disk.old) (D.seen disk.new) }
    ensures later { (D.seen disk.old).faults ≤ (D.seen disk.new).faults }
    ensures fault { IfErr result (HasOpenCause (D.seen disk.old) (D.seen disk.new)) }
{
    let buffer = zeros(alloc, FRAME_ROOM)?;
    let version = begin_on(disk)?;
    Ok((buffer, version))
}

/// A log whose disk was synced and whose version was read. Nothing was written to it, and no frame was read.
#[derive(Drop)]
pub struct BegunLog<D: Disk> {
    disk: D,
    // Room for one frame and the gate behind it.
    buffer: Vec<u8>,
    version: Version,
    ghost room: { vec_len buffer ≡ FRAME_ROOM },
    ghost only: { OnlyContent (D.seen disk) },
    ghost header: { HasHeader (number_of version) (D.seen disk) },
}

impl<D: Disk> BegunLog<D> {
    /// Begins a log that a crash may have left: it syncs, and reads the header. It writes nothing. A fault hands the disk back.
    pub fn begin(alloc: Global, disk: D) -> Result<Self, (D, JournalFault)>
        ensures begun { IfOk result (λ begun. IsBegun (D.seen disk) (D.seen begun.disk)) }
        ensures named { IfOk result (λ begun. (log : List ℕ) → (D.seen disk).content ≡ Some log → version_of log ≡ number_of begun.version) }
        ensures unfound { IfErr result (λ e. IsUnfound (D.seen disk) (D.seen e.0) e.1) }
    {
        let mut disk = disk;
        match begin_with_room(alloc, &mut disk) {
            Ok((buffer, version)) => {
                let begun = BegunLog {
                    disk,
                    buffer,
                    version,
                };
                Ok(begun)
            }
            Err(fault) => Err((disk, fault)),
        }
    }

    /// The version of the log, the newest where it is blank.
    pub fn version(&self) -> Version
        ensures { result ≡ self.now.version }
    {
        self.version
    }

    /// Finds the log: it hands its frames on as they are read, up to the first closed gate, and writes nothing. No two frames are in memory,
    /// but what the taker keeps. A fault hands the disk back; it may come behind any front of the frames.
    pub fn find<T: FrameTaker>(
        self,
        alloc: Global,
        taker: &mut T,
    ) -> Result<FoundLog<D>, (D, JournalFault)>
        requires none { T.has taker.old taker.old [] }
        // The taker has the frames of the log, and the disk was only read.
        ensures taken { IfOk result (λ log. IsTakenFrom (T.has taker.old taker.new) log.place (number_of log.version) (D.seen log.disk)) }
        ensures version { IfOk result (λ log. log.version ≡ self.version) }
        ensures unchanged { IfOk result (λ log. Unchanged (D.seen self.disk) (D.seen log.disk)) }
        ensures later { IfOk result (λ log. (D.seen self.disk).faults ≤ (D.seen log.disk).faults) }

        // A fault is what is told of whatever disk it was begun on.
        ensures unfound { IfErr result (λ e. (before : D) → IsBegun (D.seen before) (D.seen self.disk)
            → IsUnfound (D.seen before) (D.seen e.0) e.1) }
    {
        let BegunLog {
            disk,
            buffer,
            version,
            ..
        } = self;
        let mut disk = disk;
        match take_log(alloc, &mut disk, taker) {
            Ok(place) => {
                let found = FoundLog {
                    disk,
                    buffer,
                    place,
                    version,
                };
                Ok(found)
            }
            Err(fault) => Err((disk, fault)),
        }
    }
}
