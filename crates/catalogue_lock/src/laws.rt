//! A small object to use the lock with.
ghost use Rattle.std.specs.Prelude.{◌≡◌, ℕ, ◌≤◌, [], ◌∷◌, length, IfOk, Some, None, vec_capacity};
ghost use Rattle.catalogue_lock.specs.Passes.{new_pass};

use crate::NoMemory;
use crate::lock::HistoryLock;
use crate::object::Object;
use crate::pass::{Pass, Passes};
use std::alloc::Global;
use std::sync::Wait;

/// A list of numbers, with room for so many.
#[derive(Drop)]
pub struct Tally {
    room: u32,
    numbers: Vec<u64>,
    ghost fits: { length numbers.items ≤ room },
    ghost reserved: { vec_capacity numbers ≡ room },
}

impl Tally {
    /// An empty tally.
    pub fn new(alloc: Global, room: u32) -> Result<Tally, NoMemory>
        ensures { IfOk result (λ t. (t.room ≡ room) × (t.numbers.items ≡ [])) }
    {
        match Vec::with_capacity(alloc, room as usize) {
            Ok(numbers) => Ok(Tally { room, numbers }),
            Err(_) => Err(NoMemory),
        }
    }

    /// The numbers that were taken, in their order.
    pub fn numbers(&self) -> &[u64]
        ensures { result.now ≡ self.now.numbers.items }
    {
        self.numbers.as_slice()
    }
}

impl Object for Tally {
    ghost use Rattle.std.specs.Prelude.{ℕ};
    ghost use Rattle.catalogue_lock.specs.Tally.{Tallies, Counts};

    type Item = u64;

    type Call = u64;

    type Reply = Option<u64>;

    type Question = ();

    type Answer = u64;

    ghost Origin = { ℕ };

    ghost history = { λ t. t.numbers.items };

    ghost origin = { λ t. t.room };

    ghost takes = { λ call. Unit {0} };

    ghost replies = { Tallies };

    ghost answers = { Counts };

    fn apply(&mut self, call: u64) -> Option<u64> {
        let before = self.numbers.len();
        if before >= self.room as usize {
            return None;
        }
        self.numbers.push_reserved(call);
        Some(before as u64)
    }

    fn look(&self, _question: &()) -> u64 {
        self.numbers().len() as u64
    }

    fn count(&self) -> u64 {
        self.numbers.len() as u64
    }
}

/// What the worked row tells: the three replies, and the tally at the end.
#[derive(Drop)]
pub struct Row {
    pub first: Option<u64>,
    pub second: Option<u64>,
    pub third: Option<u64>,
    pub tally: Tally,
}

/// The first two of these passes.
fn first_two(passes: Vec<Pass<Tally>>, lock: &HistoryLock<Tally>) -> (Pass<Tally>, Pass<Tally>)
    requires { passes.items ≡ new_pass lock.now.id (Some lock.now.opened) [] 0 ∷ new_pass lock.now.id (Some lock.now.opened) [] 1 ∷ [] }
    ensures first { result.0 ≡ new_pass lock.now.id (Some lock.now.opened) [] 0 }
    ensures second { result.1 ≡ new_pass lock.now.id (Some lock.now.opened) [] 1 }
{
    let mut passes = passes;
    let Some(second) = passes.pop() else {
        unreachable!()
    };
    let Some(first) = passes.pop() else {
        unreachable!()
    };
    (first, second)
}

/// 5 by the first, 7 by the second, and 9 by the first again, with a meeting after each.
fn turns_of_two<R: Wait>(
    rt: &R,
    lock: HistoryLock<Tally>,
    first_pass: Pass<Tally>,
    second_pass: Pass<Tally>,
    room: Vec<Pass<Tally>>,
) -> Row
    requires lock { (lock.callers ≡ 2) × (lock.opened.room ≡ 2) × (lock.opened.numbers.items ≡ []) }
    requires first { first_pass ≡ new_pass lock.id (Some lock.opened) [] 0 }
    requires second { second_pass ≡ new_pass lock.id (Some lock.opened) [] 1 }
    requires room { (room.items ≡ []) × (2 ≤ vec_capacity room) }
    ensures first { result.first ≡ Some 0 }
    ensures second { result.second ≡ Some 1 }
    ensures third { result.third ≡ None }
    ensures numbers { result.tally.numbers.items ≡ 5 ∷ 7 ∷ [] }
{
    let mut left = first_pass;
    let mut right = second_pass;
    let mut all = room;
    let first = lock.turn(rt, &mut left, 5);
    lock.meet(&mut left, &mut right);
    let second = lock.turn(rt, &mut right, 7);
    lock.meet(&mut right, &mut left);
    let third = lock.turn(rt, &mut left, 9);
    lock.meet(&mut left, &mut right);
    all.push_reserved(left);
    all.push_reserved(right);
    let tally = lock.close(Passes::from_vec(all));
    Row {
        first,
        second,
        third,
        tally,
    }
}

/// The worked row: room for two, and two passes that meet after each turn.
pub fn worked_row<R: Wait>(rt: &R, alloc: Global) -> Result<Row, NoMemory>
    ensures first { IfOk result (λ r. r.first ≡ Some 0) }
    ensures second { IfOk result (λ r. r.second ≡ Some 1) }
    ensures third { IfOk result (λ r. r.third ≡ None) }
    ensures numbers { IfOk result (λ r. r.tally.numbers.items ≡ 5 ∷ 7 ∷ []) }
{
    let Ok(room) = Vec::with_capacity(alloc, 2) else {
        return Err(NoMemory);
    };
    let tally = Tally::new(alloc, 2)?;
    let Ok((lock, passes)) = HistoryLock::new(alloc, tally, 2) else {
        return Err(NoMemory);
    };
    let (first, second) = first_two(passes.into_vec(), &lock);
    Ok(turns_of_two(rt, lock, first, second, room))
}
