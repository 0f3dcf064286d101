ghost use Rattle.std.specs.Prelude.{◌≡◌, ◌^◌, ◌+◌, ◌<◌, ◌≤◌, All, IfSome, length};
ghost use Rattle.catalogue_lock.specs.Passes.{IsPassOf, IsReady};

mod numbers;

use catalogue_lock::laws::{Tally, worked_row};
use catalogue_lock::{HistoryLock, Pass, Passes};
use std::alloc::Global;
use std::sync::Wait;
use std::test::Fail;
use std::thread::{Threads, for_each_mut};

/// A lock round an empty tally, with its passes.
fn opened(alloc: Global, room: u32, callers: u32) -> Option<(HistoryLock<Tally>, Vec<Pass<Tally>>)>
    requires { 0 < callers }
    ensures lock { IfSome result (λ r. r.0.callers ≡ callers) }
    ensures len { IfSome result (λ r. length r.1.items ≡ callers) }
    ensures ready { IfSome result (λ r. All (IsReady r.0) r.1.items) }
{
    let Ok(tally) = Tally::new(alloc, room) else {
        return None;
    };
    let Ok((lock, passes)) = HistoryLock::new(alloc, tally, callers) else {
        return None;
    };
    Some((lock, passes.into_vec()))
}

fn take_turns<R: Wait>(rt: &R, lock: &HistoryLock<Tally>, pass: &mut Pass<Tally>, turns: u32)
    requires own { IsPassOf lock.now pass.old }
    requires room { pass.old.turns + turns ≤ 2 ^ 31 }
    ensures own { IsPassOf lock.now pass.new }
    ensures turns { pass.new.turns ≡ pass.old.turns + turns }
{
    for number in 0..turns {
        lock.turn(rt, pass, number as u64);
    }
}

/// Each pass makes as many turns, in a thread of its own.
fn race<R: Threads + Wait + Sync>(
    rt: &R,
    lock: &HistoryLock<Tally>,
    passes: &mut Vec<Pass<Tally>>,
    turns: u32,
)
    requires ready { All (IsReady lock.now) passes.old.items }
    requires few { turns < 2 ^ 31 }
    ensures own { All (IsPassOf lock.now) passes.new.items }
    ensures len { length passes.new.items ≡ length passes.old.items }
{
    for_each_mut(
        rt,
        passes.as_mut_slice(),
        64,
        &|_, pass: &mut Pass<Tally>|
            requires { IsReady lock.now pass.now × (turns < 2 ^ 31) }
            ensures { IsPassOf lock.entry.now pass.exit.now }
        { take_turns(rt, lock, pass, turns) },
    );
}

/// How many numbers so many threads leave, at so many turns each.
fn raced<R: Threads + Wait + Sync>(
    rt: &R,
    alloc: Global,
    room: u32,
    callers: u32,
    turns: u32,
) -> Option<usize>
    requires { (0 < callers) × (turns < 2 ^ 31) }
{
    let (lock, mut passes) = opened(alloc, room, callers)?;
    race(rt, &lock, &mut passes, turns);
    let tally = lock.close(Passes::from_vec(passes));
    Some(tally.numbers().len())
}

/// One pass alone: its count after more turns than there is room for.
fn alone<R: Wait>(rt: &R, alloc: Global) -> Option<(u64, Tally)> {
    let (lock, mut passes) = opened(alloc, 3, 1)?;
    let mut pass = passes.pop()?;
    take_turns(rt, &lock, &mut pass, 5);
    let count = lock.look(rt, &mut pass, &());
    passes.push(pass).ok()?;
    Some((count, lock.close(Passes::from_vec(passes))))
}

#[test]
fn the_worked_row(rt: HostRuntime) -> Result<(), Fail> {
    let Ok(met) = worked_row(&rt, rt.alloc()) else {
        panic!(rt; "no memory")
    };
    assert!(rt; met.first == Some(0) && met.second == Some(1) && met.third.is_none());
    assert!(rt; met.tally.numbers() == [5, 7].as_slice());
    Ok(())
}

#[test]
fn one_pass_is_told_when_the_room_ends(rt: HostRuntime) -> Result<(), Fail> {
    let Some((count, tally)) = alone(&rt, rt.alloc()) else {
        panic!(rt; "no memory")
    };
    assert!(rt; count == 3 && tally.numbers() == [0, 1, 2].as_slice());
    Ok(())
}

/// Two threads by a thousand turns, and sixty-four by fifty.
#[test]
fn threads_take_turns(rt: HostRuntime) {
    assert!(rt; raced(&rt, rt.alloc(), 2000, 2, 1000) == Some(2000));
    assert!(rt; raced(&rt, rt.alloc(), 4000, 64, 50) == Some(3200));
}
