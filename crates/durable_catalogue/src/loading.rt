//! The catalogue that a log's frames hold, which takes them as they are read.
ghost use Rattle.std.specs.Prelude.{◌≡◌, ◌≢◌, ◌<◌, ◌≤◌, ◌++◌, ◌∷◌, [], length, IfSome, IfOk, IfErr, OnOk, OnErr};
ghost use Rattle.std.proofs.Props.{props};
ghost use Rattle.entry_record.specs.History.{last_run, next_run, IsWithin};
ghost use Rattle.durable_catalogue.specs.declared.fault.OpenFault.TheVariants.{OldVersion, Full};
ghost use Rattle.durable_catalogue.specs.Found.{Finds, RefusesBegun, RefusesWithin};
ghost use Rattle.durable_catalogue.specs.Loading.{IsUncommitted, IsBuilt, IsLoaded, IsCatalogueOf};
ghost use Rattle.durable_catalogue.specs.Openings.{catalogue_of};

use crate::OpenFault;
use crate::opening::{find_entries, refuse_log};
use crate::taking::{EntryTaker, Passing};
use catalogue_core::{Catalogue, CoreFault};
use catalogue_rules::Steps;
use commit_journal::{BegunLog, FoundLog, Version};
use entry_record::Prepared;
use marc_types::{Limits, NoMemory};
use outside::Disk;
use std::alloc::Global;
use std::marker::Brand;
use std::sync::ledger::{Blank, Ledger};

/// A catalogue, and the run of its last entry, or 0.
#[derive(Drop)]
pub struct Loaded {
    pub core: Catalogue,
    pub last_run: u64,
}

/// Commits an entry, where it passes no limit.
fn commit_one<L: Ledger>(
    core: &mut Catalogue,
    alloc: Global,
    item: Prepared,
    steps: &mut Steps<L>,
) -> Result<(), CoreFault>
    requires { core.old.staged ≡ [] }
    ensures core { OnOk result (core.new ≡ catalogue_of core.old.limits (core.old.history ++ item ∷ [])) }
    ensures within { OnOk result (IsWithin core.old.limits (core.old.history ++ item ∷ [])) }
    ensures fault { IfErr result (IsUncommitted core.old.limits (core.old.history ++ item ∷ [])) }
    ensures unchanged { OnErr result (core.new ≡ core.old) }
{
    core.commit(alloc, item, steps)?;
    core.is_within_limits();
    Ok(())
}

/// A taker of entries that makes a catalogue of them.
#[derive(Drop)]
pub struct Building<L: Ledger> {
    /// The catalogue of the entries that came; none once they pass the limits: all that come are dropped then.
    pub core: Option<Catalogue>,
    /// The limits.
    pub limits: Limits,
    steps: Steps<L>,
    ghost unstaged: { IfSome core (λ core. core.staged ≡ []) } by { Prim.hlevel props },
}

impl<L: Ledger> Building<L> {
    /// Of no entry.
    pub fn new(alloc: Global, limits: Limits, blank: Blank) -> Building<L>
        requires name { blank.name ≡ L.name }
        requires parts { blank.parts ≡ L.parts }
        requires shared { 0 < blank.parts }
        ensures built { IsBuilt limits [] result.core }
        ensures limits { result.limits ≡ limits }
    {
        Building {
            core: Some(Catalogue::empty(alloc, limits)),
            limits,
            steps: Steps::<L>::new(blank),
        }
    }
}

impl<L: Ledger> EntryTaker for Building<L> {
    ghost use Rattle.std.specs.Prelude.{◌≡◌};
    ghost use Rattle.durable_catalogue.specs.Loading.{IsBuilt};

    ghost has = { λ begun b entries. (b.limits ≡ begun.limits) × IsBuilt b.limits entries b.core };

    fn take(&mut self, alloc: Global, item: Prepared) -> Result<(), NoMemory> {
        let Some(core) = &mut self.core else {
            return Ok(());
        };
        match commit_one(core, alloc, item, &mut self.steps) {
            Ok(()) => Ok(()),
            Err(CoreFault::Full) => {
                self.core = None;
                Ok(())
            }
            Err(CoreFault::NoMemory) => Err(NoMemory),
        }
    }
}

/// What is made of a log's frames: the catalogue of their entries, or none, where these pass the limits, and the run of the last entry,
/// or 0.
#[derive(Drop)]
struct Built {
    core: Option<Catalogue>,
    last_run: u64,
}

/// Finds a log, and makes a catalogue of its frames as they are read. Once the limits are passed the others are still read: a bad one decides
/// first.
fn build_in<L: Ledger, D: Disk>(
    alloc: Global,
    begun: BegunLog<D>,
    limits: Limits,
    blank: Blank,
) -> Result<(FoundLog<D>, Built), (D, OpenFault)>
    requires name { blank.name ≡ L.name }
    requires parts { blank.parts ≡ L.parts }
    requires shared { 0 < blank.parts }
    ensures found { IfOk result (λ r. Finds (λ IsThat. IsLoaded IsThat limits r.1.core r.1.last_run) begun r.0) }
    ensures refused { IfErr result (λ e. RefusesBegun begun e.0 e.1) }
    ensures current { IfErr result (λ e. e.1 ≢ OldVersion) }
    ensures unfilled { IfErr result (λ e. e.1 ≢ Full) }
{
    let mut building = Building::<L>::new(alloc, limits, blank);
    match find_entries(alloc, begun, limits, &mut building) {
        Ok((found, reading)) => {
            let built = Built {
                core: building.core,
                last_run: reading.last_run,
            };
            Ok((found, built))
        }
        Err(refused) => Err(refused),
    }
}

/// The same, with its steps counted in a ledger of its own.
fn build<D: Disk>(
    alloc: Global,
    begun: BegunLog<D>,
    limits: Limits,
) -> Result<(FoundLog<D>, Built), (D, OpenFault)>
    ensures found { IfOk result (λ r. Finds (λ IsThat. IsLoaded IsThat limits r.1.core r.1.last_run) begun r.0) }
    ensures refused { IfErr result (λ e. RefusesBegun begun e.0 e.1) }
    ensures current { IfErr result (λ e. e.1 ≢ OldVersion) }
    ensures unfilled { IfErr result (λ e. e.1 ≢ Full) }
{
    build_in::<Brand, D>(alloc, begun, limits, Blank::new(1))
}

/// Finds a log of either version, and answers the catalogue whose history its frames hold. It writes nothing. A fault hands the disk back.
pub fn load_either<D: Disk>(
    alloc: Global,
    begun: BegunLog<D>,
    limits: Limits,
) -> Result<(FoundLog<D>, Loaded), (D, OpenFault)>
    ensures found { IfOk result (λ r. Finds (λ IsThat. IsCatalogueOf IsThat limits r.1.core r.1.last_run) begun r.0) }
    ensures refused { IfErr result (λ e. RefusesWithin limits begun e.0 e.1) }
    ensures current { IfErr result (λ e. e.1 ≢ OldVersion) }
{
    match build(alloc, begun, limits) {
        Ok((found, built)) => {
            let Built { core, last_run } = built;
            match core {
                Some(core) => Ok((found, Loaded { core, last_run })),
                None => Err(refuse_log(found, OpenFault::Full)),
            }
        }
        Err(refused) => Err(refused),
    }
}

/// The run of what is committed behind a catalogue's history, whose last entry has that run.
pub fn run_behind(core: &Catalogue, last: u64) -> u64
    requires unstaged { core.now.staged ≡ [] }
    requires last { last ≡ last_run core.now.history }
    requires bounded { last_run core.now.history ≤ length core.now.history }
    ensures { result ≡ next_run core.now.history }
{
    // a history's length bounds its last run, and is far below what 64 bits hold
    let _few = core.history_len();
    last + 1
}

/// Reads all payloads of a log of version 1, of which no catalogue is made, and refuses it.
fn refuse_old<D: Disk>(alloc: Global, begun: BegunLog<D>, limits: Limits) -> (D, OpenFault)
    requires old { begun.version ≡ Version.One }
    ensures refused { RefusesWithin limits begun result.0 result.1 }
    ensures unfilled { result.1 ≢ Full }
{
    match find_entries(alloc, begun, limits, &mut Passing) {
        Ok((found, _reading)) => refuse_log(found, OpenFault::OldVersion),
        Err(refused) => refused,
    }
}

/// Finds a log of the newest version, and answers the catalogue whose history its frames hold. An old version is answered before a full one.
pub fn load<D: Disk>(
    alloc: Global,
    begun: BegunLog<D>,
    limits: Limits,
) -> Result<(FoundLog<D>, Loaded), (D, OpenFault)>
    ensures found { IfOk result (λ r. Finds (λ IsThat. IsCatalogueOf IsThat limits r.1.core r.1.last_run) begun r.0) }
    ensures newest { OnOk result (begun.version ≡ Version.Two) }
    ensures refused { IfErr result (λ e. RefusesWithin limits begun e.0 e.1) }
    ensures old_first { IfErr result (λ e. e.1 ≡ Full → begun.version ≡ Version.Two) }
{
    match begun.version() {
        Version::One => Err(refuse_old(alloc, begun, limits)),
        Version::Two => load_either(alloc, begun, limits),
    }
}
