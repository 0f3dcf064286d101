ghost use Rattle.std.specs.Prelude.{◌≡◌, ◌==◌, ◌<◌, ◌≤◌, length, slice_get, slice_index_or, insert, remove};
ghost use Rattle.std.specs.Prelude.{MatchResult, OnOk, OnErr, IfOk, IfErr, Some};
ghost use Rattle.std.specs.List.{position};
ghost use Rattle.form_index.specs.Order.{Ascends, IsGap, number_cmp};
ghost use Rattle.form_index.specs.Listed.{no_list, with_held, released, entered, stepped, withdrawn};

use marc_types::{Key, NoMemory};
use numbering::{Blank, Numbering};
use std::alloc::Global;
use std::cmp::Ordering;
use std::marker::Model;

/// Where a number goes: into the order, or out of it.
#[derive(Clone, Copy, Debug)]
pub(crate) enum Step {
    Enter,
    Withdraw,
}

/// The numbers of the rows that have one form: first those of the live rows in key order, then those for which a taken
/// row holds a place. A number moves between the two in the room that it has.
#[derive(Drop)]
pub(crate) struct KeyList {
    numbers: Vec<u32>,
    live: usize,
}

impl Model for KeyList {
    ghost use Rattle.std.specs.Prelude.{◌≤◌, length, take, drop};
    ghost use Rattle.form_index.specs.Listed.{Listed};

    ghost Value = { Listed };

    ghost view = { λ l. record { live = take l.live l.numbers.items; held = drop l.live l.numbers.items } };

    ghost invariant = { λ l. l.live ≤ length l.numbers.items };
}

impl Blank for KeyList {
    ghost blank = { no_list };

    fn blank(alloc: Global) -> KeyList {
        KeyList::new(alloc)
    }
}

impl KeyList {
    pub(crate) fn new(alloc: Global) -> KeyList
        ensures { result ≡ no_list }
    {
        KeyList {
            numbers: Vec::new(alloc),
            live: 0,
        }
    }

    /// The numbers of the live rows in key order.
    pub(crate) fn live(&self) -> &[u32]
        ensures { result.now ≡ self.now.live }
    {
        &self.numbers[..self.live]
    }

    // The numbers for which a taken row holds a place.
    fn held(&self) -> &[u32]
        ensures { result.now ≡ self.now.held }
    {
        &self.numbers[self.live..]
    }

    /// Makes a place for a number, which isn't in the order yet.
    pub(crate) fn hold(&mut self, number: u32) -> Result<(), NoMemory>
        ensures ok { OnOk result (self.new ≡ with_held number self.old) }
        ensures err { OnErr result (self.new ≡ self.old) }
    {
        self.numbers.insert(self.live, number)?;
        Ok(())
    }

    /// Gives up a place that is held for the number.
    pub(crate) fn release(&mut self, number: u32)
        ensures { self.new ≡ released number self.old }
    {
        if let Some(place) = place_of(self.held(), number) {
            self.numbers.remove(self.live + place);
        }
    }

    /// Moves the number from a place that is held for it to its place in key order.
    pub(crate) fn enter(&mut self, keys: &Numbering<Key>, number: u32)
        requires known { number < length keys.now }
        requires ascends { Ascends keys.now self.old.live }
        ensures entered { self.new ≡ entered keys.now number self.old }
        ensures ascends { Ascends keys.now self.new.live }
    {
        let Some(from) = place_of(self.held(), number) else {
            return;
        };
        if let Err(to) = search(keys, self.live(), number) {
            move_number(&mut self.numbers, self.live + from, to);
            self.live += 1;
        }
    }

    /// Moves the number out of the order, and holds a place for it.
    pub(crate) fn withdraw(&mut self, keys: &Numbering<Key>, number: u32)
        requires known { number < length keys.now }
        requires ascends { Ascends keys.now self.old.live }
        ensures withdrawn { self.new ≡ withdrawn number self.old }
        ensures ascends { Ascends keys.now self.new.live }
    {
        if let Ok(from) = search(keys, self.live(), number) {
            move_number(&mut self.numbers, from, self.live - 1);
            self.live -= 1;
        }
    }

    pub(crate) fn step(&mut self, step: Step, keys: &Numbering<Key>, number: u32)
        requires known { number < length keys.now }
        requires ascends { Ascends keys.now self.old.live }
        ensures stepped { self.new ≡ stepped keys.now number step self.old }
        ensures ascends { Ascends keys.now self.new.live }
    {
        match step {
            Step::Enter => self.enter(keys, number),
            Step::Withdraw => self.withdraw(keys, number),
        }
    }
}

// The place of a number in a list.
fn place_of(numbers: &[u32], number: u32) -> Option<usize>
    ensures { result ≡ position (λ m. m == number) numbers.now }
{
    numbers.iter().position(|other| *other == number)
}

// The order of the keys that two numbers stand for.
#[tactic(auto, using(crate::proofs::Ordered::order_of_one), unfolding(crate::specs::Order::key_at))]
fn order(keys: &Numbering<Key>, number: u32, other: u32) -> Ordering
    requires number { number < length keys.now }
    requires other { other < length keys.now }
    ensures { result ≡ number_cmp keys.now number other }
{
    if number == other {
        // the keys' texts lie far away
        return Ordering::Equal;
    }
    match (keys.at(number), keys.at(other)) {
        (Some(key), Some(other_key)) => key.cmp(other_key),
        // not reached: both numbers are known
        _ => Ordering::Equal,
    }
}

// The place of a number in a list in key order, or the one where it belongs.
fn search(keys: &Numbering<Key>, numbers: &[u32], number: u32) -> Result<usize, usize>
    requires known { number < length keys.now }
    requires ascends { Ascends keys.now numbers.now }
    ensures bound { MatchResult result (λ i. i < length numbers.now) (λ i. i ≤ length numbers.now) }
    ensures found { IfOk result (λ i. slice_get numbers.now i ≡ Some number) }
    ensures absent { IfErr result (IsGap keys.now numbers.now number) }
{
    // no key has two numbers
    let _distinct = keys.len();
    let mut low = 0;
    let mut high = numbers.len();
    while low < high {
        let middle = low + (high - low) / 2;
        match order(keys, numbers[middle], number) {
            Ordering::Less => low = middle + 1,
            Ordering::Equal => return Ok(middle),
            Ordering::Greater => high = middle,
        }
    }
    Err(low)
}

// Moves a number within a list. The room that it leaves is the room that it takes.
fn move_number(numbers: &mut Vec<u32>, from: usize, to: usize)
    requires from { from < length numbers.old.items }
    requires to { to < length numbers.old.items }
    ensures { numbers.new.items ≡ insert (remove numbers.old.items from) to (slice_index_or numbers.old.items from 0) }
{
    let number = numbers.remove(from);
    if numbers.insert(to, number).is_err() {
        // not reached: the list has room for one more
    }
}
