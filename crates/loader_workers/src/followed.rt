//! Files loaded side by side, while what is committed is handed on.
ghost use Rattle.std.specs.Prelude.{◌≡◌, ℕ, List, [], ◌+◌, ◌<◌, ◌≤◌, None, IsTrue, All, Ok, IfOk, OnOk, OnErr, length, vec_capacity};
ghost use mathlib.Core.List.{IsPrefix};
ghost use Rattle.marc_types.specs.Valid.{is_code};
ghost use Rattle.marc_types.specs.Limits.{most_entries};
ghost use Rattle.entry_record.specs.History.{next_run};
ghost use Rattle.entry_history.specs.declared.event.Event.{Event};
ghost use Rattle.durable_catalogue.specs.Asked.{IsFrom};
ghost use Rattle.durable_catalogue.specs.Durables.{mark_of, events};
ghost use Rattle.durable_catalogue.specs.News.{start_of};
ghost use Rattle.durable_catalogue.specs.Views.{durable_view};
ghost use Rattle.loader_workers.specs.Files.{CanBeLoaded, IsLockOver, AreLoaded, extra_pass, first_passes};
ghost use Rattle.loader_workers.specs.Tasks.{IsReserved};

use crate::beside::{Work, load_beside};
use crate::dealing::{Reserved, deal, take_apart};
use crate::following::{Follower, follow_rest};
use crate::input::InputFiles;
use crate::meanwhile::Meanwhile;
use crate::pager::Pager;
use crate::result::Results;
use crate::task::Shared;
use catalogue_lock::{HistoryLock, Pass, Passes};
use durable_catalogue::Durable;
use heading_rows::HeadingTaker;
use marc_types::NoMemory;
use outside::{Disk, Gate, Source};
use std::alloc::Global;
use std::sync::Wait;
use std::thread::Threads;

/// What became of files that were loaded, of what took the entries meanwhile, and of what paged: `told` is that there was memory for all
/// of these entries.
pub struct Followed<D: Disk, S, T, P> {
    pub durable: Durable<D>,
    pub files: InputFiles<S>,
    pub results: Result<Results, NoMemory>,
    pub taker: T,
    pub told: Result<(), NoMemory>,
    pub pager: P,
}

/// Loads files under a new lock with these passes, of which the last is the follower's, and closes it.
fn load_under_followed<
    H: Threads + Wait + Sync,
    D: Disk + Send,
    S: Source + Send,
    G: Gate + Sync,
    T: HeadingTaker + Send,
    P: Pager + Send,
>(
    rt: &H,
    alloc: Global,
    lock: HistoryLock<Durable<D>>,
    passes: Passes<Durable<D>>,
    follower: Follower<Durable<D>, T>,
    pager: P,
    files: InputFiles<S>,
    reserved: Reserved<Durable<D>, S>,
    works: Vec<Work<Durable<D>, S, T, P>>,
    gate: &G,
) -> Followed<D, S, T, P>
    requires lock { IsLockOver lock.opened.core.history (mark_of lock.opened.mark) lock.opened.core.limits lock.opened.run (length files) lock passes }
    requires callers { lock.callers ≡ length files + 1 }
    requires last { follower.pass ≡ extra_pass lock (events lock.opened.core.history (mark_of lock.opened.mark)) (length files) }
    requires files { CanBeLoaded files }
    requires reserved { IsReserved reserved (length files) (length files + 1) }
    requires works { (works.items ≡ []) × (3 ≤ vec_capacity works) }
    requires news { IsFrom (start_of lock.opened.news) (length (T.taken follower.taker)) }
    requires begins { T.taken follower.taker ≡ lock.opened.core.history }
    requires takes { T.takes follower.taker }
    requires page { P.can_page pager }
    ensures loaded { IfOk result.results (λ results. AreLoaded S.left S.faults lock.opened.core.limits lock.opened.core.history files result.files results
        result.durable.core.history (mark_of result.durable.mark)) }
    ensures begun { OnErr result.results ⊥ }
    ensures origin { (durable_view result.durable).opened ≡ (durable_view lock.opened).opened }
    ensures news { IsFrom (start_of result.durable.news) (length (T.taken result.taker)) }
    ensures begins { IsPrefix (T.taken result.taker) result.durable.core.history }
    ensures takes { OnOk result.told (T.takes result.taker) }
    ensures paged { P.has_paged pager result.pager }
{
    let Reserved {
        places,
        files: files_left,
        passes: mut passes_left,
        results,
    } = reserved;
    let places = deal(passes, files, places);
    let shared = Shared {
        alloc,
        gate,
        lock: &lock,
    };
    let meanwhile = Meanwhile::begin();
    let (follower, pager, places) = load_beside(
        rt, &shared, &meanwhile, follower, pager, places, works,
    );
    let Follower { pass, taker, told } = follower;
    passes_left.push_reserved(pass);
    let (files, passes, results) = take_apart(places, files_left, passes_left, results);
    Followed {
        durable: lock.close(passes),
        files,
        results: Ok(results),
        taker,
        told,
        pager,
    }
}

/// The last pass of a new lock apart from the others.
fn last_apart<D: Disk>(
    lock: &HistoryLock<Durable<D>>,
    passes: Passes<Durable<D>>,
) -> (Passes<Durable<D>>, Pass<Durable<D>>)
    requires some { 0 < length passes }
    ensures { (brought : List Event) (count : ℕ) → passes ≡ first_passes lock.now brought (count + 1)
        → (result.0 ≡ first_passes lock.now brought count) × (result.1 ≡ extra_pass lock.now brought count) }
{
    let mut passes = passes.into_vec();
    let Some(last) = passes.pop() else {
        unreachable!()
    };
    (Passes::from_vec(passes), last)
}

/// Does what `load_files` does, and meanwhile hands the entries that are committed on, in their order and each as a heading, to what has
/// taken those that the catalogue has, while a pager pages. In the end all were taken, unless there was no memory; then a front of them.
pub fn load_files_followed<
    H: Threads + Wait + Sync,
    D: Disk + Send,
    S: Source + Send,
    G: Gate + Sync,
    T: HeadingTaker + Send,
    P: Pager + Send,
>(
    rt: &H,
    alloc: Global,
    durable: Durable<D>,
    files: InputFiles<S>,
    gate: &G,
    taker: T,
    pager: P,
) -> Followed<D, S, T, P>
    requires some { 0 < length files }
    requires few { length files ≤ 64 }
    requires proper { All (λ file. IsTrue (is_code file.code)) files }
    requires whole { mark_of durable.mark ≡ None }
    requires run { durable.run ≡ next_run durable.core.history }
    requires limits { durable.core.limits.entries ≤ most_entries }
    requires begins { T.taken taker ≡ durable.core.history }
    requires takes { T.takes taker }
    requires page { P.can_page pager }

    // What is committed of each file, counted and refused, and why its loading ended.
    ensures loaded { IfOk result.results (λ results. AreLoaded S.left S.faults durable.core.limits durable.core.history files result.files results
        result.durable.core.history (mark_of result.durable.mark)) }

    // Without memory to begin, all is as it was.
    ensures unbegun { OnErr result.results (result.durable.core.history ≡ durable.core.history) }
    ensures unmarked { OnErr result.results (mark_of result.durable.mark ≡ None) }
    ensures files { OnErr result.results (result.files ≡ files) }
    ensures unpaged { OnErr result.results (result.pager ≡ pager) }

    // What the opening left stays.
    ensures origin { (durable_view result.durable).opened ≡ (durable_view durable).opened }

    // All entries were taken, or, where there was no memory, a front of them.
    ensures all { OnOk result.told (T.taken result.taker ≡ result.durable.core.history) }
    ensures front { IsPrefix (T.taken result.taker) result.durable.core.history }
    ensures takes { OnOk result.told (T.takes result.taker) }

    // The pager paged.
    ensures paged { IfOk result.results (λ results. P.has_paged pager result.pager) }
{
    let Ok(works) = Vec::with_capacity(alloc, 3) else {
        return as_it_was(durable, files, taker, pager);
    };
    let count = files.len();
    let Ok(reserved) = Reserved::new(alloc, count, count + 1) else {
        works.destroy_empty();
        return as_it_was(durable, files, taker, pager);
    };
    let mut durable = durable;
    durable.keep_news();
    match HistoryLock::new(alloc, durable, count as u32 + 1) {
        Ok((lock, passes)) => {
            let (passes, pass) = last_apart(&lock, passes);
            let follower = Follower {
                pass,
                taker,
                told: Ok(()),
            };
            let loaded = load_under_followed(
                rt, alloc, lock, passes, follower, pager, files, reserved, works, gate,
            );
            take_rest(loaded)
        }
        Err((durable, _)) => {
            reserved.give_back();
            works.destroy_empty();
            as_it_was(durable, files, taker, pager)
        }
    }
}

/// Nothing was begun, and what the catalogue has was taken.
fn as_it_was<D: Disk, S, T, P>(
    durable: Durable<D>,
    files: InputFiles<S>,
    taker: T,
    pager: P,
) -> Followed<D, S, T, P>
    ensures durable { result.durable ≡ durable }
    ensures mark { mark_of result.durable.mark ≡ mark_of durable.mark }
    ensures files { result.files ≡ files }
    ensures results { IfOk result.results (λ results. ⊥) }
    ensures taker { result.taker ≡ taker }
    ensures told { result.told ≡ Ok tt }
    ensures pager { result.pager ≡ pager }
{
    Followed {
        durable,
        files,
        results: Err(NoMemory),
        taker,
        told: Ok(()),
        pager,
    }
}

/// The same, with the entries taken that the follower left.
fn take_rest<D: Disk, S, T: HeadingTaker, P>(loaded: Followed<D, S, T, P>) -> Followed<D, S, T, P>
    requires news { IsFrom (start_of loaded.durable.news) (length (T.taken loaded.taker)) }
    requires begins { IsPrefix (T.taken loaded.taker) loaded.durable.core.history }
    requires takes { OnOk loaded.told (T.takes loaded.taker) }
    ensures all { OnOk result.told (T.taken result.taker ≡ result.durable.core.history) }
    ensures front { IsPrefix (T.taken result.taker) result.durable.core.history }
    ensures takes { OnOk result.told (T.takes result.taker) }
    ensures durable { result.durable ≡ loaded.durable }
    ensures files { result.files ≡ loaded.files }
    ensures results { result.results ≡ loaded.results }
    ensures pager { result.pager ≡ loaded.pager }
{
    let mut all = loaded;
    if all.told.is_ok() {
        all.told = follow_rest(&all.durable, &mut all.taker);
    }
    all
}
