ghost use Rattle.std.specs.Prelude.{◌≡◌, ◌<◌, ℕ, All, length, slice_index_or};
ghost use Rattle.loader_workers.specs.Turns.{IsCatalogue};
ghost use Rattle.loader_workers.specs.SideBySide.{CanLoad, LoadsTask, HasTask, IsDone, Each};

use crate::loading::load;
use crate::task::{FileTask, Shared};
use catalogue_lock::Object;
use entry_history::{Batch, BatchReply, Event};
use outside::{Gate, Source};
use std::sync::Wait;
use std::thread::{Threads, for_each_mut};

/// Loads the file of the task at a place. The task is taken out meanwhile, since a loader owns its file.
fn load_at<O: Object<Item = Event, Call = Batch, Reply = BatchReply>, R: Wait, S: Source, G: Gate>(
    rt: &R,
    shared: &Shared<'_, O, G>,
    place: &mut Option<FileTask<O, S>>,
)
    requires waits { HasTask (λ task. CanLoad shared.now.lock.now task.pass task.file.code) place.old }
    requires catalogue { IsCatalogue O.takes (O.replies (O.origin shared.now.lock.now.opened)) }
    ensures { IsDone (LoadsTask (O.replies (O.origin shared.now.lock.now.opened)) S.left S.bound S.faults) place.old place.new }
{
    let Some(task) = place.take() else {
        unreachable!()
    };
    match place.replace(load(rt, shared, task)) {
        None => {}
        Some(_) => unreachable!(),
    }
}

/// Does the tasks at these places side by side, each in a thread of its own, and leaves each at its place.
pub fn load_each<
    O: Object<Item = Event, Call = Batch, Reply = BatchReply> + Send,
    R: Threads + Wait + Sync,
    S: Source + Send,
    G: Gate + Sync,
>(rt: &R, shared: &Shared<'_, O, G>, places: &mut [Option<FileTask<O, S>>])
    requires wait { All (HasTask (λ task. CanLoad shared.now.lock.now task.pass task.file.code)) places.old }
    requires catalogue { IsCatalogue O.takes (O.replies (O.origin shared.now.lock.now.opened)) }
    ensures { Each (LoadsTask (O.replies (O.origin shared.now.lock.now.opened)) S.left S.bound S.faults) places.old places.new }
{
    let threads = places.len().max(1);
    for_each_mut(
        rt,
        places,
        threads,
        &|_, place: &mut Option<FileTask<O, S>>|
            requires { HasTask (λ task. CanLoad shared.now.lock.now task.pass task.file.code) place.now
                × IsCatalogue O.takes (O.replies (O.origin shared.now.lock.now.opened)) }
            ensures { IsDone (LoadsTask (O.replies (O.origin shared.entry.now.lock.now.opened)) S.left S.bound S.faults) place.entry.now place.exit.now }
        { load_at(rt, shared, place) },
    );
}

/// Does many tasks side by side, each in a thread of its own, and leaves each at its place.
pub fn load_all<
    O: Object<Item = Event, Call = Batch, Reply = BatchReply> + Send,
    R: Threads + Wait + Sync,
    S: Source + Send,
    G: Gate + Sync,
>(
    rt: &R,
    shared: &Shared<'_, O, G>,
    places: Vec<Option<FileTask<O, S>>>,
) -> Vec<Option<FileTask<O, S>>>
    requires wait { All (HasTask (λ task. CanLoad shared.now.lock.now task.pass task.file.code)) places.items }
    requires catalogue { IsCatalogue O.takes (O.replies (O.origin shared.now.lock.now.opened)) }
    ensures each { Each (LoadsTask (O.replies (O.origin shared.now.lock.now.opened)) S.left S.bound S.faults) places.items result.items }
{
    let mut places = places;
    load_each(rt, shared, places.as_mut_slice());
    places
}
