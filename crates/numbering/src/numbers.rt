ghost use Rattle.std.specs.Prelude.{◌≡◌, ◌≤◌, ◌<◌, ◌∷◌, ◌++◌, List, [], false, length, position, slice_get, option_copied, None, Some, IfOk, IfSome, OnOk, OnErr, if◌then◌else◌};
ghost use Rattle.std.specs.List.{IsDistinct};
ghost use Rattle.numbering.specs.Numbers.{is_known, number_of, with_thing, IsNumberOf, Keeps};

use indexmap::IndexSet;
use marc_types::{NoMemory, TryCopy};
use std::alloc::Global;
use std::hash::Hash;
use std::marker::Model;

/// So many things are looked through one by one. A numbering of more of them finds each in a table.
const FEW: usize = 32;

/// The things in the order of their numbers.
#[derive(Drop)]
enum Things<T: Eq + Hash> {
    Few(Vec<T>),
    Many(IndexSet<T>),
}

/// Things in the order in which they got their numbers, which go from 0 on. No number is ever taken back.
///
/// Contracts see the list of the things.
#[derive(Drop)]
pub struct Numbering<T: Eq + Hash> {
    things: Things<T>,
}

impl<T: Eq + Hash> Model for Numbering<T> {
    ghost use Rattle.std.specs.Prelude.{List, ◌≤◌, length};
    ghost use Rattle.std.specs.List.{IsDistinct};
    ghost use Rattle.numbering.specs.Things.{things_in};

    ghost Value = { List T };

    ghost view = { λ n. things_in n.things };

    ghost invariant = { λ n. (length (things_in n.things) ≤ 4294967295) × IsDistinct T.eq (things_in n.things) };
}

// The place of a thing among few.
fn place_among<T: Eq>(things: &[T], thing: &T) -> Option<usize>
    ensures place { result ≡ position (T.eq thing.now) things.now }
    ensures within { IfSome result (λ i. i < length things.now) }
{
    things.iter().position(|other| *thing == *other)
}

// A table of few things.
#[tactic(auto, using(crate::proofs::Tablelaws::moved_next))]
fn table_of<T: Eq + Hash + TryCopy>(alloc: Global, things: &[T]) -> Result<IndexSet<T>, NoMemory>
    requires { IsDistinct T.eq things.now }
    ensures { IfOk result (λ table. table.keys ≡ things.now) }
{
    let mut table = IndexSet::new(alloc);
    for i in 0..things.len() {
        table.insert(things[i].copy(alloc)?)?;
    }
    Ok(table)
}

impl<T: Eq + Hash> Numbering<T> {
    /// Nothing has a number yet.
    #[tactic(auto, using(crate::proofs::Tablelaws::distinct_none))]
    pub fn new(alloc: Global) -> Numbering<T>
        ensures { result ≡ [] }
    {
        Numbering {
            things: Things::Few(Vec::new(alloc)),
        }
    }

    /// How many things have a number; the numbers are those below.
    pub fn len(&self) -> usize
        ensures length { result ≡ length self.now }
        ensures fits { length self.now ≤ 4294967295 }
        ensures unique { IsDistinct T.eq self.now }
    {
        match &self.things {
            Things::Few(things) => things.len(),
            Things::Many(things) => things.len(),
        }
    }

    /// The number of a thing, if it has one.
    #[tactic(auto, using(crate::proofs::Tablelaws::place_told))]
    pub fn number_of(&self, thing: &T) -> Option<u32>
        ensures { result ≡ (if is_known T.eq self.now thing.now then Some (number_of T.eq self.now thing.now) else None) }
    {
        match self.place_of(thing) {
            None => None,
            Some(index) => Some(index as u32),
        }
    }

    // The place of a thing in the list of all.
    fn place_of(&self, thing: &T) -> Option<usize>
        ensures place { result ≡ position (T.eq thing.now) self.now }
        ensures within { IfSome result (λ i. i < length self.now) }
        ensures fits { length self.now ≤ 4294967295 }
    {
        match &self.things {
            Things::Few(things) => place_among(things.as_slice(), thing),
            Things::Many(things) => things.get_index_of(thing),
        }
    }

    /// The thing that has the number, if there is one.
    pub fn at(&self, number: u32) -> Option<&T>
        ensures { option_copied result ≡ slice_get self.now number }
    {
        match &self.things {
            Things::Few(things) => things.get(number as usize),
            Things::Many(things) => things.get_index(number as usize),
        }
    }
}

impl<T: Eq + Hash + TryCopy> Numbering<T> {
    /// The number of a thing, which gets the next one if it had none. Only a new thing is copied.
    ///
    /// `NoMemory` where there is no memory for a new thing, or where 4294967295 things have a number already.
    #[tactic(auto, using(crate::proofs::Tablelaws::distinct_more))]
    pub fn add(&mut self, alloc: Global, thing: &T) -> Result<u32, NoMemory>
        ensures number { IfOk result (IsNumberOf T.eq self.new thing.now) }
        ensures keeps { Keeps T.eq self.old self.new }
        ensures unique { IsDistinct T.eq self.new }
        ensures ok { OnOk result (self.new ≡ with_thing T.eq self.old thing.now) }
        ensures err { OnErr result (self.new ≡ self.old) }
    {
        let number = self.len();
        if let Some(known) = self.number_of(thing) {
            return Ok(known);
        }
        if number >= u32::MAX as usize {
            return Err(NoMemory);
        }
        self.push(alloc, thing.copy(alloc)?)?;
        Ok(number as u32)
    }

    // Puts a new thing last.
    fn push(&mut self, alloc: Global, thing: T) -> Result<(), NoMemory>
        requires new { is_known T.eq self.old thing ≡ false }
        requires room { length self.old < 4294967295 }
        ensures ok { OnOk result (self.new ≡ self.old ++ thing ∷ []) }
        ensures err { OnErr result (self.new ≡ self.old) }
    {
        self.spread(alloc)?;
        self.put_last(thing)
    }

    // Where few have become many, they move into a table.
    fn spread(&mut self, alloc: Global) -> Result<(), NoMemory>
        ensures { self.new ≡ self.old }
    {
        let Things::Few(things) = &self.things else {
            return Ok(());
        };
        if things.len() < FEW {
            return Ok(());
        }
        let table = table_of(alloc, things.as_slice())?;
        self.things = Things::Many(table);
        Ok(())
    }

    #[tactic(auto, using(crate::proofs::Tablelaws::distinct_more))]
    fn put_last(&mut self, thing: T) -> Result<(), NoMemory>
        requires new { is_known T.eq self.old thing ≡ false }
        requires room { length self.old < 4294967295 }
        ensures ok { OnOk result (self.new ≡ self.old ++ thing ∷ []) }
        ensures err { OnErr result (self.new ≡ self.old) }
    {
        match &mut self.things {
            Things::Few(things) => things.push(thing)?,
            Things::Many(things) => {
                things.insert(thing)?;
            }
        }
        Ok(())
    }
}
