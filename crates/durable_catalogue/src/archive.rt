//! A log of either version, read.
ghost use Rattle.std.specs.Prelude.{◌≡◌, ◌≢◌, ℕ, List, [], Some, IfOk, IfErr};
ghost use Rattle.commit_journal.specs.Log.{version_of};
ghost use Rattle.commit_journal.specs.Versions.{number_of};
ghost use Rattle.durable_catalogue.specs.declared.fault.OpenFault.TheVariants.{OldVersion};
ghost use Rattle.durable_catalogue.specs.Logs.{HasHistory};
ghost use Rattle.durable_catalogue.specs.Opened.{IsOpenedDisk, IsRefusedDisk};
ghost use Rattle.entry_record.specs.History.{IsWithin};

use crate::loading::load_either;
use crate::opening::{begin_log, take_log};
use crate::{OnClose, OpenFault};
use catalogue_core::Catalogue;
use commit_journal::{Journal, Version};
use marc_types::Limits;
use outside::Disk;
use std::alloc::Global;

/// The catalogue of a log of version 1 or 2, to which nothing is committed.
#[derive(Drop)]
pub struct RecoveredReadOnly<D: Disk> {
    core: Catalogue,
    journal: Journal<D>,
    ghost unstaged: { core.staged ≡ [] },
}

impl<D: Disk> RecoveredReadOnly<D> {
    /// Opens a log that a crash may have left, of either version: its history is the catalogue's. Of a journal that isn't
    /// blank it writes no gate. A fault hands the disk back.
    pub fn open(alloc: Global, disk: D, limits: Limits) -> Result<Self, (D, OpenFault)>
        ensures history { IfOk result (λ a. (log : List ℕ) → (D.seen disk).content ≡ Some log → HasHistory a.core.history log) }
        ensures version { IfOk result (λ a. (log : List ℕ) → (D.seen disk).content ≡ Some log → version_of log ≡ number_of a.journal.version) }
        ensures within { IfOk result (λ a. IsWithin limits a.core.history) }

        // The log is in order, and what was read of it is durable; or it was refused, and is left alone.
        ensures opened { IfOk result (λ a. IsOpenedDisk (D.seen disk) (D.seen a.journal.disk)) }
        ensures refused { IfErr result (λ e. IsRefusedDisk limits (D.seen disk) (D.seen e.0) e.1) }
        ensures current { IfErr result (λ e. e.1 ≢ OldVersion) }
    {
        let begun = begin_log(alloc, disk)?;
        let (found, loaded) = load_either(alloc, begun, limits)?;
        let journal = take_log(found)?;
        Ok(RecoveredReadOnly {
            core: loaded.core,
            journal,
        })
    }

    /// The catalogue, with nothing staged.
    pub fn core(&self) -> &Catalogue
        ensures value { result.now ≡ self.now.core }
        ensures unstaged { result.now.staged ≡ [] }
    {
        &self.core
    }

    /// The version of the log, the newest where it was blank.
    pub fn version(&self) -> Version
        ensures { result ≡ self.now.journal.version }
    {
        self.journal.version()
    }

    /// Gives the disk back.
    pub fn close(self, memory: OnClose) -> D
        ensures { result ≡ self.journal.disk }
    {
        let RecoveredReadOnly { journal, core, .. } = self;
        memory.end(core);
        journal.close()
    }
}
