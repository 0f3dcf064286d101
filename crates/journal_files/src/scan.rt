//! The history of a log of either version.
ghost use Rattle.std.specs.Prelude.{◌≡◌, ◌≢◌, ℕ, List, [], Some, IfOk, IfErr, OnOk};
ghost use Rattle.commit_journal.specs.Log.{version_of};
ghost use Rattle.commit_journal.specs.Versions.{number_of};
ghost use Rattle.durable_catalogue.specs.declared.fault.OpenFault.TheVariants.{OldVersion};
ghost use Rattle.durable_catalogue.specs.Opened.{IsOpenedDisk, IsRefusedDisk};
ghost use Rattle.journal_files.specs.Journals.{IsHistoryOn};
ghost use Rattle.journal_files.specs.Taking.{IsHandedOn};

use commit_journal::{Journal, Version};
use durable_catalogue::{EntryTaker, OpenFault, begin_log, find_entries, refuse_log, take_log};
use marc_types::Limits;
use outside::Disk;
use std::alloc::Global;

/// A log of version 1 or 2 whose entries were handed on, and to which nothing is committed.
#[derive(Drop)]
pub struct JournalScan<D: Disk> {
    journal: Journal<D>,
}

impl<D: Disk> JournalScan<D> {
    /// Opens a log that a crash may have left, of either version, and hands its entries on. Of a journal that isn't blank it writes
    /// no gate. A fault hands the disk back; any front of the entries was then handed on.
    pub fn open<T: EntryTaker>(
        alloc: Global,
        disk: D,
        limits: Limits,
        taker: &mut T,
    ) -> Result<Self, (D, OpenFault)>
        requires none { T.has taker.old taker.old [] }
        ensures taken { OnOk result (IsHandedOn (T.has taker.old taker.new) (IsHistoryOn (D.seen disk)) limits) }
        ensures version { IfOk result (λ h. (log : List ℕ) → (D.seen disk).content ≡ Some log → version_of log ≡ number_of h.journal.version) }

        // The log is in order, and what was read of it is durable; or it was refused, and is left alone.
        ensures opened { IfOk result (λ h. IsOpenedDisk (D.seen disk) (D.seen h.journal.disk)) }
        ensures refused { IfErr result (λ e. IsRefusedDisk limits (D.seen disk) (D.seen e.0) e.1) }
        ensures current { IfErr result (λ e. e.1 ≢ OldVersion) }
    {
        let begun = begin_log(alloc, disk)?;
        let (found, reading) = find_entries(alloc, begun, limits, taker)?;
        let fits = reading.fits;
        if !fits {
            return Err(refuse_log(found, OpenFault::Full));
        }
        let journal = take_log(found)?;
        Ok(JournalScan { journal })
    }

    /// The version of the log, the newest where it was blank.
    pub fn version(&self) -> Version
        ensures { result ≡ self.now.journal.version }
    {
        self.journal.version()
    }

    /// Gives the disk back.
    pub fn close(self) -> D
        ensures { result ≡ self.journal.disk }
    {
        let JournalScan { journal } = self;
        journal.close()
    }
}
