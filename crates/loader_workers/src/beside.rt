//! Loading, following and paging side by side.
ghost use Rattle.std.specs.Prelude.{◌≡◌, ◌+◌, ◌<◌, ◌≤◌, ◌^◌, ℕ, [], ◌∷◌, All, length, slice_index_or, vec_len, vec_capacity};
ghost use Rattle.loader_workers.specs.Turns.{IsCatalogue};
ghost use Rattle.loader_workers.specs.SideBySide.{CanLoad, LoadsTask, HasTask, Each};
ghost use Rattle.loader_workers.specs.Following.{CanFollow, HasFollowed};
ghost use Rattle.loader_workers.specs.Beside.{CanWork, HasWorked, HaveWorked};

use crate::following::{Follower, follow_while};
use crate::meanwhile::Meanwhile;
use crate::pager::Pager;
use crate::side_by_side::load_each;
use crate::task::{FileTask, Shared};
use catalogue_lock::Object;
use durable_catalogue::{Ask, Told};
use entry_history::{Batch, BatchReply, Event};
use heading_rows::HeadingTaker;
use marc_types::NoMemory;
use outside::{Gate, Source};
use std::sync::Wait;
use std::thread::{Threads, for_each_mut};

/// What is done side by side: the history is followed, what is taken of it is paged through, and files are loaded.
pub enum Work<O: Object, S, T, P> {
    Follow(Follower<O, T>),
    Page(P),
    Load(Vec<Option<FileTask<O, S>>>),
}

/// Does one of them. With the loading the time for the others ends.
fn work_at<
    O: Object<
        Item = Event,
        Call = Batch,
        Reply = BatchReply,
        Question = Ask,
        Answer = Result<Told, NoMemory>,
    >
        + Send,
    R: Threads + Wait + Sync,
    S: Source + Send,
    G: Gate + Sync,
    T: HeadingTaker,
    P: Pager,
>(rt: &R, shared: &Shared<'_, O, G>, meanwhile: &Meanwhile, work: &mut Work<O, S, T, P>)
    requires can { CanWork T.taken T.takes P.can_page (O.answers (O.origin shared.now.lock.now.opened)) shared.now.lock.now work.old }
    requires catalogue { IsCatalogue O.takes (O.replies (O.origin shared.now.lock.now.opened)) }
    ensures { HasWorked T.taken T.takes P.has_paged (O.replies (O.origin shared.now.lock.now.opened)) S.left S.bound S.faults work.old work.new }
{
    match work {
        Work::Follow(follower) => {
            let told = follow_while(rt, shared.lock, follower, meanwhile);
            follower.told = told;
        }
        Work::Page(pager) => pager.page_while(rt, meanwhile),
        Work::Load(places) => {
            load_each(rt, shared, places.as_mut_slice());
            meanwhile.end();
        }
    }
}

/// Does them side by side. The loading stands last, since the last is done in this thread, and so is begun whether or not threads can be
/// made for the others.
fn work_each<
    O: Object<
        Item = Event,
        Call = Batch,
        Reply = BatchReply,
        Question = Ask,
        Answer = Result<Told, NoMemory>,
    >
        + Send,
    R: Threads + Wait + Sync,
    S: Source + Send,
    G: Gate + Sync,
    T: HeadingTaker + Send,
    P: Pager + Send,
>(rt: &R, shared: &Shared<'_, O, G>, meanwhile: &Meanwhile, works: &mut [Work<O, S, T, P>])
    requires can { All (CanWork T.taken T.takes P.can_page (O.answers (O.origin shared.now.lock.now.opened)) shared.now.lock.now) works.old }
    requires catalogue { IsCatalogue O.takes (O.replies (O.origin shared.now.lock.now.opened)) }
    ensures len { length works.new ≡ length works.old }
    ensures each { HaveWorked T.taken T.takes P.has_paged (O.replies (O.origin shared.now.lock.now.opened)) S.left S.bound S.faults works.old works.new }
{
    let threads = works.len().max(1);
    for_each_mut(
        rt,
        works,
        threads,
        &|_, work: &mut Work<O, S, T, P>|
            requires { CanWork T.taken T.takes P.can_page (O.answers (O.origin shared.now.lock.now.opened)) shared.now.lock.now work.now
                × IsCatalogue O.takes (O.replies (O.origin shared.now.lock.now.opened)) }
            ensures { HasWorked T.taken T.takes P.has_paged (O.replies (O.origin shared.entry.now.lock.now.opened)) S.left S.bound S.faults work.entry.now work.exit.now }
        { work_at(rt, shared, meanwhile, work) },
    );
}

/// The three that are in a list.
fn three_of<X>(all: Vec<X>) -> (X, X, X)
    requires { vec_len all ≡ 3 }
    ensures { all.items ≡ result.0 ∷ result.1 ∷ result.2 ∷ [] }
{
    let mut all = all.into_iter();
    let Some(first) = all.next() else {
        unreachable!()
    };
    let Some(second) = all.next() else {
        unreachable!()
    };
    let Some(third) = all.next() else {
        unreachable!()
    };
    all.destroy_empty();
    (first, second, third)
}

/// Loads the files of tasks, each in a thread of its own, and leaves each at its place, while a follower follows and a pager pages. The
/// follower may leave some entries.
pub fn load_beside<
    O: Object<
        Item = Event,
        Call = Batch,
        Reply = BatchReply,
        Question = Ask,
        Answer = Result<Told, NoMemory>,
    >
        + Send,
    R: Threads + Wait + Sync,
    S: Source + Send,
    G: Gate + Sync,
    T: HeadingTaker + Send,
    P: Pager + Send,
>(
    rt: &R,
    shared: &Shared<'_, O, G>,
    meanwhile: &Meanwhile,
    follower: Follower<O, T>,
    pager: P,
    places: Vec<Option<FileTask<O, S>>>,
    works: Vec<Work<O, S, T, P>>,
) -> (Follower<O, T>, P, Vec<Option<FileTask<O, S>>>)
    requires follow { CanFollow T.taken T.takes (O.answers (O.origin shared.now.lock.now.opened)) (2 ^ 30 + 1) shared.now.lock.now follower.pass follower.taker }
    requires page { P.can_page pager }
    requires wait { All (HasTask (λ task. CanLoad shared.now.lock.now task.pass task.file.code)) places.items }
    requires catalogue { IsCatalogue O.takes (O.replies (O.origin shared.now.lock.now.opened)) }
    requires works { (works.items ≡ []) × (3 ≤ vec_capacity works) }
    ensures followed { HasFollowed T.taken T.takes follower.pass result.0.pass follower.taker result.0.taker result.0.told }
    ensures paged { P.has_paged pager result.1 }
    ensures each { Each (LoadsTask (O.replies (O.origin shared.now.lock.now.opened)) S.left S.bound S.faults) places.items result.2.items }
{
    let mut works = works;
    works.push_reserved(Work::Follow(follower));
    works.push_reserved(Work::Page(pager));
    works.push_reserved(Work::Load(places));
    work_each(rt, shared, meanwhile, works.as_mut_slice());
    let (first, second, third) = three_of(works);
    let Work::Follow(follower) = first else {
        unreachable!()
    };
    let Work::Page(pager) = second else {
        unreachable!()
    };
    let Work::Load(places) = third else {
        unreachable!()
    };
    (follower, pager, places)
}
