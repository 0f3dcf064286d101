ghost use Rattle.std.specs.Prelude.{◌≡◌, ◌<◌, ◌≤◌, None, IsTrue, All, IfOk, OnErr, length};
ghost use Rattle.marc_types.specs.Valid.{is_code};
ghost use Rattle.entry_record.specs.History.{next_run};
ghost use Rattle.durable_catalogue.specs.Views.{durable_view};
ghost use Rattle.durable_catalogue.specs.Durables.{mark_of};
ghost use Rattle.marc_types.specs.Limits.{most_entries};
ghost use Rattle.loader_workers.specs.Files.{CanBeLoaded, IsLockOver, AreLoaded};
ghost use Rattle.loader_workers.specs.Tasks.{IsReserved};

use crate::dealing::{Reserved, deal, take_apart};
use crate::input::InputFiles;
use crate::result::Results;
use crate::side_by_side::load_all;
use crate::task::Shared;
use catalogue_lock::{HistoryLock, Passes};
use durable_catalogue::Durable;
use marc_types::NoMemory;
use outside::{Disk, Gate, Source};
use std::alloc::Global;
use std::sync::Wait;
use std::thread::Threads;

/// Loads files under a new lock with these passes, and closes it.
fn load_under<H: Threads + Wait + Sync, D: Disk + Send, S: Source + Send, G: Gate + Sync>(
    rt: &H,
    alloc: Global,
    lock: HistoryLock<Durable<D>>,
    passes: Passes<Durable<D>>,
    files: InputFiles<S>,
    reserved: Reserved<Durable<D>, S>,
    gate: &G,
) -> (Durable<D>, InputFiles<S>, Results)
    requires lock { IsLockOver lock.opened.core.history (mark_of lock.opened.mark) lock.opened.core.limits lock.opened.run (length files) lock passes }
    requires callers { lock.callers ≡ length files }
    requires files { CanBeLoaded files }
    requires reserved { IsReserved reserved (length files) (length files) }
    ensures loaded { AreLoaded S.left S.faults lock.opened.core.limits lock.opened.core.history files result.1 result.2
        result.0.core.history (mark_of result.0.mark) }
    ensures origin { (durable_view result.0).opened ≡ (durable_view lock.opened).opened }
{
    let Reserved {
        places,
        files: files_left,
        passes: passes_left,
        results,
    } = reserved;
    let places = deal(passes, files, places);
    let shared = Shared {
        alloc,
        gate,
        lock: &lock,
    };
    let places = load_all(rt, &shared, places);
    let (files, passes, results) = take_apart(places, files_left, passes_left, results);
    (lock.close(passes), files, results)
}

/// Loads 1 to 64 files side by side into a catalogue over a journal, each in a thread of its own, and gives the results in the
/// files' order. Where there is no memory to begin, nothing is loaded, and catalogue and files come back as they were.
pub fn load_files<H: Threads + Wait + Sync, D: Disk + Send, S: Source + Send, G: Gate + Sync>(
    rt: &H,
    alloc: Global,
    durable: Durable<D>,
    files: InputFiles<S>,
    gate: &G,
) -> (Durable<D>, InputFiles<S>, Result<Results, NoMemory>)
    requires some { 0 < length files }
    requires few { length files ≤ 64 }
    requires proper { All (λ file. IsTrue (is_code file.code)) files }
    requires whole { mark_of durable.mark ≡ None }
    requires run { durable.run ≡ next_run durable.core.history }
    requires limits { durable.core.limits.entries ≤ most_entries }

    // What is committed of each file, counted and refused, and why its loading ended.
    ensures loaded { IfOk result.2 (λ results. AreLoaded S.left S.faults durable.core.limits durable.core.history files result.1 results
        result.0.core.history (mark_of result.0.mark)) }

    // Without memory to begin, all is as it was.
    ensures unbegun { OnErr result.2 (result.0.core.history ≡ durable.core.history) }
    ensures unmarked { OnErr result.2 (mark_of result.0.mark ≡ None) }
    ensures files { OnErr result.2 (result.1 ≡ files) }

    // What the opening left stays.
    ensures origin { (durable_view result.0).opened ≡ (durable_view durable).opened }
{
    let Ok(reserved) = Reserved::new(alloc, files.len(), files.len()) else {
        return (durable, files, Err(NoMemory));
    };
    match HistoryLock::new(alloc, durable, files.len() as u32) {
        Ok((lock, passes)) => {
            let (durable, files, results) = load_under(
                rt, alloc, lock, passes, files, reserved, gate,
            );
            (durable, files, Ok(results))
        }
        Err((durable, _)) => {
            reserved.give_back();
            (durable, files, Err(NoMemory))
        }
    }
}
