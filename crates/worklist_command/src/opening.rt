//! A journal that is read: its catalogue, and who brought its entries.
ghost use Rattle.std.specs.Prelude.{◌≡◌, ◌≢◌, ◌<◌, ℕ, List, true, Some, None, IfOk, IfErr, ◌∷◌, []};
ghost use Rattle.outside.specs.Room.{AsLog, SameBut};
ghost use Rattle.commit_journal.specs.Log.{version_of};
ghost use Rattle.commit_journal.specs.Versions.{number_of};
ghost use Rattle.durable_catalogue.specs.declared.fault.OpenFault.TheVariants.{OldVersion};
ghost use Rattle.durable_catalogue.specs.Logs.{HasHistory};
ghost use Rattle.durable_catalogue.specs.Opened.{IsOpenedDisk, IsRefusedDisk};
ghost use Rattle.durable_catalogue.specs.Openings.{IsUnopened};
ghost use Rattle.entry_record.specs.History.{IsWithin};
ghost use Rattle.journal_files.specs.Journals.{journal_limits, log_bytes, IsClosedDisk, IsOpenLog, IsRefusedLog};
ghost use Rattle.worklist_page.specs.Brought.{brought_by};

use crate::cataloguing::CataloguingAndCounting;
use catalogue_core::Catalogue;
use durable_catalogue::OpenFault;
use journal_files::{JournalScan, close_history, close_refused, limits_of};
use marc_types::Limits;
use memory_files::ByteDisk;
use outside::{Disk, Room};
use std::alloc::Global;
use std::marker::Brand;
use std::sync::ledger::{Blank, Ledger};
use worklist_page::Brought;

/// The catalogue of a journal's history, who brought its entries, and the journal's log.
#[derive(Drop)]
pub(crate) struct CataloguedAndCounted<D: Disk> {
    pub(crate) core: Catalogue,
    pub(crate) brought: Brought,
    pub(crate) scan: JournalScan<D>,
    ghost unstaged: { core.staged ≡ [] },
    ghost counted: { brought ≡ brought_by core.history },
}

// Opens it with its steps counted in a ledger.
fn open_in<L: Ledger, D: Disk>(
    alloc: Global,
    limits: Limits,
    disk: D,
    blank: Blank,
) -> Result<CataloguedAndCounted<D>, (D, OpenFault)>
    requires name { blank.name ≡ L.name }
    requires parts { blank.parts ≡ L.parts }
    requires shared { 0 < blank.parts }
    ensures history { IfOk result (λ l. (log : List ℕ) → (D.seen disk).content ≡ Some log → HasHistory l.core.history log) }
    ensures within { IfOk result (λ l. IsWithin limits l.core.history) }
    ensures version { IfOk result (λ l. (log : List ℕ) → (D.seen disk).content ≡ Some log → version_of log ≡ number_of l.scan.journal.version) }
    ensures opened { IfOk result (λ l. IsOpenedDisk (D.seen disk) (D.seen l.scan.journal.disk)) }
    ensures refused { IfErr result (λ e. IsRefusedDisk limits (D.seen disk) (D.seen e.0) e.1) }
    ensures current { IfErr result (λ e. e.1 ≢ OldVersion) }
{
    let mut cataloguing = CataloguingAndCounting::<L>::new(alloc, limits, blank);
    let scan = match JournalScan::open(alloc, disk, limits, &mut cataloguing) {
        Ok(scan) => scan,
        Err(refused) => return Err(refused),
    };
    let CataloguingAndCounting { building, brought } = cataloguing;
    let core = building.core;
    match core {
        Some(core) => Ok(CataloguedAndCounted {
            core,
            brought,
            scan,
        }),
        // its history is within the limits
        None => unreachable!(),
    }
}

impl<D: Disk> CataloguedAndCounted<D> {
    /// Opens a log that a crash may have left, of either version, to read its history. A fault hands the disk back.
    fn open(alloc: Global, limits: Limits, disk: D) -> Result<Self, (D, OpenFault)>
        ensures history { IfOk result (λ l. (log : List ℕ) → (D.seen disk).content ≡ Some log → HasHistory l.core.history log) }
        ensures within { IfOk result (λ l. IsWithin limits l.core.history) }
        ensures version { IfOk result (λ l. (log : List ℕ) → (D.seen disk).content ≡ Some log → version_of log ≡ number_of l.scan.journal.version) }
        ensures opened { IfOk result (λ l. IsOpenedDisk (D.seen disk) (D.seen l.scan.journal.disk)) }
        ensures refused { IfErr result (λ e. IsRefusedDisk limits (D.seen disk) (D.seen e.0) e.1) }
        ensures current { IfErr result (λ e. e.1 ≢ OldVersion) }
    {
        open_in::<Brand, D>(alloc, limits, disk, Blank::new(1))
    }
}

/// Opens the file of that name to read its history, of either version. A fault closes it again.
#[tactic(auto, using(journal_files::proofs::Journals::unopened_log))]
pub(crate) fn open_catalogued<R: Room>(
    alloc: Global,
    room: &mut R,
    name: &str,
) -> Result<CataloguedAndCounted<R::Log>, OpenFault>
    requires { (R.seen room.old).open_as name.now ≡ None }
    ensures apart { SameBut (R.seen room.old) (R.seen room.new) (name.now ∷ []) }

    // The catalogue has the log's history, within the room's limits, and the log keeps it.
    ensures log { IfOk result (λ l. IsOpenLog (R.seen room.old) (R.seen room.new) name.now (number_of l.scan.journal.version) (R.Log.seen l.scan.journal.disk)) }
    ensures history { IfOk result (λ l. (R.seen room.old).tells ≡ true → HasHistory l.core.history (log_bytes (R.seen room.old) name.now)) }
    ensures within { IfOk result (λ l. IsWithin (journal_limits (R.seen room.old)) l.core.history) }

    // A log that is refused keeps its history.
    ensures refused { IfErr result (IsRefusedLog (R.seen room.old) (R.seen room.new) name.now) }
    ensures current { IfErr result (λ fault. fault ≢ OldVersion) }
{
    let limits = limits_of(room);
    let Ok(log) = room.open_log(name) else {
        return Err(OpenFault::DeviceFault);
    };
    match CataloguedAndCounted::open(alloc, limits, log) {
        Ok(catalogued) => Ok(catalogued),
        Err(refused) => Err(close_refused(room, name, refused)),
    }
}

/// Closes its log as the file of that name.
pub(crate) fn close_catalogued<R: Room>(
    room: &mut R,
    name: &str,
    catalogued: CataloguedAndCounted<R::Log>,
)
    requires { (R.seen room.old).open_as name.now ≡ Some AsLog }
    ensures apart { SameBut (R.seen room.old) (R.seen room.new) (name.now ∷ []) }
    ensures closed { (R.seen room.new).open_as name.now ≡ None }
    ensures log { (R.seen room.old).tells ≡ true → IsClosedDisk (R.Log.seen catalogued.scan.journal.disk) (R.seen room.new) name.now }
{
    close_history(room, name, catalogued.scan);
}

/// The catalogue of a journal's bytes, of either version, and who brought its entries. A fault tells why they aren't a journal's, that
/// their history passes these limits, or want of memory.
pub(crate) fn read_catalogued(
    alloc: Global,
    limits: Limits,
    bytes: Vec<u8>,
) -> Result<CataloguedAndCounted<ByteDisk>, OpenFault>
    ensures history { IfOk result (λ l. HasHistory l.core.history bytes.items) }
    ensures within { IfOk result (λ l. IsWithin limits l.core.history) }
    ensures unopened { IfErr result (IsUnopened limits bytes.items) }
    ensures current { IfErr result (λ fault. fault ≢ OldVersion) }
{
    let Some(disk) = ByteDisk::new(alloc, bytes) else {
        return Err(OpenFault::NoMemory);
    };
    match CataloguedAndCounted::open(alloc, limits, disk) {
        Ok(catalogued) => Ok(catalogued),
        Err((_disk, fault)) => Err(fault),
    }
}
