//! The worked row, by passes whose numbers the lock's history has.
ghost use Rattle.std.specs.Prelude.{◌≡◌, ◌+◌, ◌^◌, ◌<◌, ◌≤◌, ◌++◌, [], ◌∷◌, Some, None, vec_capacity};
ghost use Rattle.catalogue_lock.specs.History.{numbered};
ghost use Rattle.catalogue_lock.specs.Passes.{Closed, IsPassOf, new_pass};
ghost use Rattle.base_cases.specs.Rows.{TurnedAndMet, TookThreeTurns};

use catalogue_lock::laws::Tally;
use catalogue_lock::{HistoryLock, Pass, Passes};
use std::sync::Wait;
use std::test::Fail;

/// What three calls are answered.
type Replies = (Option<u64>, Option<u64>, Option<u64>);

/// One call, and a meeting then.
fn turn_and_meet<R: Wait>(
    rt: &R,
    lock: &HistoryLock<Tally>,
    pass: &mut Pass<Tally>,
    other: &mut Pass<Tally>,
    call: u64,
) -> Option<u64>
    requires own { IsPassOf lock.now pass.old }
    requires other_own { IsPassOf lock.now other.old }
    requires few { pass.old.turns < 2 ^ 31 }
    ensures met { TurnedAndMet lock.now.opened.room call result pass.old other.old pass.new other.new }
    ensures own { IsPassOf lock.now pass.new }
    ensures other_own { IsPassOf lock.now other.new }
    ensures turns { pass.new.turns ≡ pass.old.turns + 1 }
    ensures other_turns { other.new.turns ≡ other.old.turns }
{
    let reply = lock.turn(rt, pass, call);
    lock.meet(pass, other);
    reply
}

/// 5 by the first, 7 by the second, and 9 by the first again.
fn three_turns<R: Wait>(
    rt: &R,
    lock: &HistoryLock<Tally>,
    first: &mut Pass<Tally>,
    second: &mut Pass<Tally>,
) -> Replies
    requires own { IsPassOf lock.now first.old }
    requires second_own { IsPassOf lock.now second.old }
    requires new { (first.old.turns ≡ 0) × (second.old.turns ≡ 0) }
    ensures turns { TookThreeTurns lock.now.opened.room result.0 result.1 result.2 first.old second.old first.new second.new }
    ensures own { IsPassOf lock.now first.new }
    ensures second_own { IsPassOf lock.now second.new }
{
    let one = turn_and_meet(rt, lock, first, second, 5);
    let two = turn_and_meet(rt, lock, second, first, 7);
    let three = turn_and_meet(rt, lock, first, second, 9);
    (one, two, three)
}

/// The tally, once the lock is closed: the first pass has added 5 and the second 7, and under their numbers the history has these.
fn closed(
    lock: HistoryLock<Tally>,
    first: Pass<Tally>,
    second: Pass<Tally>,
    room: Vec<Pass<Tally>>,
    replies: &Replies,
) -> Tally
    requires lock { (lock.callers ≡ 2) × (lock.opened.room ≡ 2) × (lock.opened.numbers.items ≡ []) }
    requires own { IsPassOf lock first × IsPassOf lock second }
    requires room { (room.items ≡ []) × (2 ≤ vec_capacity room) }
    requires turns { TookThreeTurns 2 replies.now.0 replies.now.1 replies.now.2 (new_pass lock.id (Some lock.opened) [] 0) (new_pass lock.id (Some lock.opened) [] 1) first second }
    ensures replies { (replies.now.0 ≡ Some 0) × (replies.now.1 ≡ Some 1) × (replies.now.2 ≡ None) }
    ensures first { first.added ≡ 5 ∷ [] }
    ensures second { second.added ≡ 7 ∷ [] }
    ensures numbers { result.numbers.items ≡ 5 ∷ 7 ∷ [] }
    ensures history { ∥ ((c : Closed 2 (first ∷ second ∷ []) [] result.numbers.items) × (c.history ≡ numbered (Some 0) (5 ∷ []) ++ numbered (Some 1) (7 ∷ []))) ∥₁ }
{
    let mut passes = room;
    passes.push_reserved(first);
    passes.push_reserved(second);
    lock.close(Passes::from_vec(passes))
}

/// The first two of these passes.
fn first_two(passes: Vec<Pass<Tally>>, lock: &HistoryLock<Tally>) -> (Pass<Tally>, Pass<Tally>)
    requires { passes.items ≡ new_pass lock.now.id (Some lock.now.opened) [] 0 ∷ new_pass lock.now.id (Some lock.now.opened) [] 1 ∷ [] }
    ensures first { result.0 ≡ new_pass lock.now.id (Some lock.now.opened) [] 0 }
    ensures second { result.1 ≡ new_pass lock.now.id (Some lock.now.opened) [] 1 }
{
    let mut passes = passes;
    let Some(second) = passes.pop() else {
        unreachable!()
    };
    let Some(first) = passes.pop() else {
        unreachable!()
    };
    (first, second)
}

#[test]
fn the_items_have_the_numbers_of_their_passes(rt: HostRuntime) -> Result<(), Fail> {
    let alloc = rt.alloc();
    let room = Vec::with_capacity(alloc, 2)?;
    let Ok(tally) = Tally::new(alloc, 2) else {
        panic!(rt; "no memory")
    };
    let Ok((lock, passes)) = HistoryLock::new(alloc, tally, 2) else {
        panic!(rt; "no memory")
    };
    let (mut first, mut second) = first_two(passes.into_vec(), &lock);
    let replies = three_turns(&rt, &lock, &mut first, &mut second);
    let tally = closed(lock, first, second, room, &replies);
    assert!(rt; replies.0 == Some(0) && replies.1 == Some(1) && replies.2.is_none());
    assert!(rt; tally.numbers() == [5, 7].as_slice());
    Ok(())
}
