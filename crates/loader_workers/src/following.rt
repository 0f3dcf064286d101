//! What follows a catalogue's history while others load.
ghost use Rattle.std.specs.Prelude.{◌≡◌, ◌^◌, ◌+◌, ◌<◌, ◌≤◌, ℕ, List, Option, true, length, IfOk, OnOk};
ghost use mathlib.Core.List.{IsPrefix};
ghost use Rattle.marc_types.specs.declared.entry.Entry.{Entry};
ghost use Rattle.durable_catalogue.specs.Asked.{IsFrom, IsToldSince};
ghost use Rattle.durable_catalogue.specs.News.{start_of};
ghost use Rattle.loader_workers.specs.Following.{TakesTold, CanFollow, HasFollowed};

use crate::meanwhile::Meanwhile;
use catalogue_lock::{HistoryLock, Object, Pass};
use durable_catalogue::{Ask, Durable, Told};
use entry_history::Event;
use heading_rows::HeadingTaker;
use marc_types::NoMemory;
use outside::Disk;
use std::sync::Wait;

/// So many entries are asked for at once.
const MOST: u32 = 1024;

/// So many milliseconds are rested at most between two questions, since each takes a turn in which no loader commits.
const REST: u64 = 4;

/// So often at most they are asked for while others load.
const LOOKS: u32 = 1 << 30;

/// What follows a catalogue: the pass that it looks with, what takes the entries, and whether there was memory for these.
pub struct Follower<O: Object, T> {
    pub pass: Pass<O>,
    pub taker: T,
    pub told: Result<(), NoMemory>,
}

/// Takes what was told of the entries behind those taken; whether there were any.
fn take_told<T: HeadingTaker>(taker: &mut T, told: Result<Told, NoMemory>) -> Result<bool, NoMemory>
    requires takes { T.takes taker.old }
    ensures told { (start : Option ℕ) (history : List Entry) → IsFrom start (length (T.taken taker.old)) → IsPrefix (T.taken taker.old) history
        → IfOk told (IsToldSince start history (length (T.taken taker.old)) MOST) → TakesTold history (T.taken taker.new) result }
    ensures longer { length (T.taken taker.old) ≤ length (T.taken taker.new) }
    ensures more { IfOk result (λ more. more ≡ true → length (T.taken taker.old) < length (T.taken taker.new)) }
    ensures takes { OnOk result (T.takes taker.new) }
{
    match told? {
        Told::Since(headings) => {
            let some = !headings.is_empty();
            taker.take(headings)?;
            Ok(some)
        }
        // never told of what was taken
        Told::Status(_) | Told::NotKept => Ok(false),
    }
}

/// Asks once for the entries behind those taken, and takes them; whether there were any.
fn follow_once<
    O: Object<Item = Event, Question = Ask, Answer = Result<Told, NoMemory>>,
    R: Wait,
    T: HeadingTaker,
>(rt: &R, lock: &HistoryLock<O>, follower: &mut Follower<O, T>) -> Result<bool, NoMemory>
    requires { CanFollow T.taken T.takes (O.answers (O.origin lock.now.opened)) 1 lock.now follower.old.pass follower.old.taker }
    ensures followed { HasFollowed T.taken T.takes follower.old.pass follower.new.pass follower.old.taker follower.new.taker result }
    ensures turns { follower.new.pass.turns ≡ follower.old.pass.turns + 1 }
{
    let ask = Ask::Since {
        from: follower.taker.count(),
        most: MOST,
    };
    let told = lock.look(rt, &mut follower.pass, &ask);
    take_told(&mut follower.taker, told)
}

/// Takes the entries that come until the loaders have ended, and may leave some.
pub fn follow_while<
    O: Object<Item = Event, Question = Ask, Answer = Result<Told, NoMemory>>,
    R: Wait,
    T: HeadingTaker,
>(
    rt: &R,
    lock: &HistoryLock<O>,
    follower: &mut Follower<O, T>,
    meanwhile: &Meanwhile,
) -> Result<(), NoMemory>
    requires { CanFollow T.taken T.takes (O.answers (O.origin lock.now.opened)) (2 ^ 30 + 1) lock.now follower.old.pass follower.old.taker }
    ensures { HasFollowed T.taken T.takes follower.old.pass follower.new.pass follower.old.taker follower.new.taker result }
{
    let mut looks = 0;
    'looks: while looks < LOOKS && !meanwhile.is_over() {
        looks += 1;
        let before = follower.taker.count();
        follow_once(rt, lock, follower)?;
        if follower.taker.count() - before < u64::from(MOST) {
            meanwhile.rest_for(rt, REST);
        }
    }
    Ok(())
}

/// Takes the next entries of a catalogue behind those taken; whether there were any.
fn take_next<D: Disk, T: HeadingTaker>(
    durable: &Durable<D>,
    taker: &mut T,
) -> Result<bool, NoMemory>
    requires news { IsFrom (start_of durable.now.news) (length (T.taken taker.old)) }
    requires begins { IsPrefix (T.taken taker.old) durable.now.core.history }
    requires takes { T.takes taker.old }
    ensures told { TakesTold durable.now.core.history (T.taken taker.new) result }
    ensures longer { length (T.taken taker.old) ≤ length (T.taken taker.new) }
    ensures more { IfOk result (λ more. more ≡ true → length (T.taken taker.old) < length (T.taken taker.new)) }
    ensures takes { OnOk result (T.takes taker.new) }
{
    let ask = Ask::Since {
        from: taker.count(),
        most: MOST,
    };
    let told = durable.look(&ask);
    take_told(taker, told)
}

/// Takes all entries of a catalogue that are left.
pub fn follow_rest<D: Disk, T: HeadingTaker>(
    durable: &Durable<D>,
    taker: &mut T,
) -> Result<(), NoMemory>
    requires news { IsFrom (start_of durable.now.news) (length (T.taken taker.old)) }
    requires begins { IsPrefix (T.taken taker.old) durable.now.core.history }
    requires takes { T.takes taker.old }
    ensures all { OnOk result (T.taken taker.new ≡ durable.now.core.history) }
    ensures begins { IsPrefix (T.taken taker.new) durable.now.core.history }
    ensures takes { OnOk result (T.takes taker.new) }
{
    'rest: loop {
        if !take_next(durable, taker)? {
            return Ok(());
        }
    }
}
