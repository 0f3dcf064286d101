ghost use Rattle.std.specs.Prelude.{◌≡◌, if◌then◌else◌, ◌+◌, ◌-◌, ◌<◌, true, [], ◌∷◌, ◌++◌, length, slice_index_or, OnOk, OnErr, IfOk, IfNone, IfSome};
ghost use Rattle.std.specs.Bool.{OnTrue};
ghost use Rattle.std.specs.List.{list_any};
ghost use Rattle.postings.specs.Group.{times_in, times_among, times_counted};
ghost use Rattle.postings.specs.Listed.{HasEach};

use marc_types::NoMemory;
use numbering::Blank;
use std::alloc::Global;
use std::collections::BTreeMap;

/// So many things are looked through one by one. A group that has had more keeps them in a tree, which grows by small steps.
const FEW: usize = 32;

/// The things under one name, each as often as it stands there.
#[derive(Drop)]
pub enum Group<P: Ord> {
    Empty,
    One(P),
    Few(Vec<P>),
    Many(Box<BTreeMap<P, u32>>),
}

impl<P: Ord + Copy> Blank for Group<P> {
    ghost use Rattle.postings.specs.declared.group.Group.TheVariants.{Empty};

    ghost blank = { Empty };

    fn blank(_alloc: Global) -> Group<P> {
        Group::Empty
    }
}

// One more of a thing among those that are counted.
fn count_in<P: Ord + Copy>(counts: &mut BTreeMap<P, u32>, thing: P) -> Result<(), NoMemory>
    ensures ok { OnOk result ((p : P) → times_counted P.eq counts.new p ≡ times_counted P.eq counts.old p + (if P.eq thing p then 1 else 0)) }
    ensures err { OnErr result ((p : P) → times_counted P.eq counts.new p ≡ times_counted P.eq counts.old p) }
{
    if let Some(times) = counts.get_mut(&thing) {
        if *times == u32::MAX {
            return Err(NoMemory);
        }
        *times += 1;
        return Ok(());
    }
    counts.insert(thing, 1)?;
    Ok(())
}

// One less of a thing among those that are counted, if there is one.
fn uncount_in<P: Ord + Copy>(counts: &mut BTreeMap<P, u32>, thing: P)
    ensures { (p : P) → times_counted P.eq counts.new p ≡ times_counted P.eq counts.old p - (if P.eq thing p then 1 else 0) }
{
    if let Some(times) = counts.get_mut(&thing) {
        if *times > 1 {
            *times -= 1;
            return;
        }
    }
    counts.remove(&thing);
}

// Where the thing stands in a list.
fn place_of<P: Eq + Copy>(things: &[P], thing: P) -> Option<usize>
    ensures found { IfSome result (λ i. (i < length things.now) × (P.eq (slice_index_or things.now i thing) thing ≡ true)) }
    ensures none { IfNone result ((p : P) → P.eq thing p ≡ true → times_among P.eq things.now p ≡ 0) }
{
    for i in 0..things.len() {
        if things[i] == thing {
            return Some(i);
        }
    }
    None
}

// One less of a thing in a list, if there is one.
fn remove_from<P: Eq + Copy>(things: &mut Vec<P>, thing: P)
    ensures { (p : P) → times_among P.eq things.new.items p ≡ times_among P.eq things.old.items p - (if P.eq thing p then 1 else 0) }
{
    if let Some(place) = place_of(things.as_slice(), thing) {
        things.remove(place);
    }
}

// The same things, counted.
fn counted<P: Ord + Copy>(alloc: Global, things: &[P]) -> Result<Box<BTreeMap<P, u32>>, NoMemory>
    ensures { IfOk result (λ counts. (p : P) → times_counted P.eq counts.value p ≡ times_among P.eq things.now p) }
{
    let mut counts = BTreeMap::new(alloc);
    for i in 0..things.len() {
        count_in(&mut counts, things[i])?;
    }
    let counts = Box::new(alloc, counts)?;
    Ok(counts)
}

// Adds a thing that isn't there yet.
fn add_once<P: Eq + Copy>(once: &mut Vec<P>, thing: P) -> Result<(), NoMemory>
    ensures { OnOk result (once.new.items
        ≡ (if list_any (λ own. P.eq own thing) once.old.items then once.old.items else once.old.items ++ thing ∷ [])) }
{
    if once.contains(&thing) {
        return Ok(());
    }
    once.push(thing)?;
    Ok(())
}

// Each of the things once.
fn each_once<P: Eq + Copy>(alloc: Global, things: &[P]) -> Result<Vec<P>, NoMemory>
    ensures { IfOk result (λ once. HasEach P.eq (times_among P.eq things.now) once.items) }
{
    let mut once = Vec::with_capacity(alloc, things.len())?;
    for i in 0..things.len() {
        add_once(&mut once, things[i])?;
    }
    Ok(once)
}

// One thing once.
fn only<P: Eq + Copy>(alloc: Global, thing: P) -> Result<Vec<P>, NoMemory>
    ensures { IfOk result (λ things. HasEach P.eq (λ p. if P.eq thing p then 1 else 0) things.items) }
{
    let mut things = Vec::with_capacity(alloc, 1)?;
    things.push(thing)?;
    Ok(things)
}

// Two things, and room for two more.
fn two<P: Copy>(alloc: Global, first: P, second: P) -> Result<Vec<P>, NoMemory>
    ensures { IfOk result (λ things. things.items ≡ first ∷ second ∷ []) }
{
    let mut things = Vec::with_capacity(alloc, 4)?;
    things.push(first)?;
    things.push(second)?;
    Ok(things)
}

// The things that are counted.
fn keys_of<P: Ord + Copy>(alloc: Global, counts: &BTreeMap<P, u32>) -> Result<Vec<P>, NoMemory>
    ensures { IfOk result (λ things. HasEach P.eq (times_counted P.eq counts.now) things.items) }
{
    let mut things = Vec::with_capacity(alloc, counts.len())?;
    for thing in counts.keys() {
        things.push(*thing)?;
    }
    Ok(things)
}

impl<P: Ord + Copy> Group<P> {
    /// One more of the thing. `NoMemory` leaves all counts as they were.
    pub(crate) fn note(&mut self, alloc: Global, thing: P) -> Result<(), NoMemory>
        ensures ok { OnOk result ((p : P) → times_in P.eq self.new p ≡ times_in P.eq self.old p + (if P.eq thing p then 1 else 0)) }
        ensures err { OnErr result ((p : P) → times_in P.eq self.new p ≡ times_in P.eq self.old p) }
    {
        self.grow(alloc)?;
        self.gain(alloc, thing)
    }

    // One more of the thing.
    fn gain(&mut self, alloc: Global, thing: P) -> Result<(), NoMemory>
        ensures ok { OnOk result ((p : P) → times_in P.eq self.new p ≡ times_in P.eq self.old p + (if P.eq thing p then 1 else 0)) }
        ensures err { OnErr result ((p : P) → times_in P.eq self.new p ≡ times_in P.eq self.old p) }
    {
        match self {
            Group::Empty => *self = Group::One(thing),
            Group::One(one) => *self = Group::Few(two(alloc, *one, thing)?),
            Group::Few(things) => things.push(thing)?,
            Group::Many(counts) => count_in(counts, thing)?,
        }
        Ok(())
    }

    // Counts the things of a list that is full.
    fn grow(&mut self, alloc: Global) -> Result<(), NoMemory>
        ensures { (p : P) → times_in P.eq self.new p ≡ times_in P.eq self.old p }
    {
        if let Some(counts) = self.outgrown(alloc)? {
            *self = Group::Many(counts);
        }
        Ok(())
    }

    // The counts of a list that is full.
    fn outgrown(&self, alloc: Global) -> Result<Option<Box<BTreeMap<P, u32>>>, NoMemory>
        ensures { IfOk result (λ found. IfSome found (λ counts. (p : P) → times_counted P.eq counts.value p ≡ times_in P.eq self.now p)) }
    {
        let Group::Few(things) = self else {
            return Ok(None);
        };
        if things.len() < FEW {
            return Ok(None);
        }
        let counts = counted(alloc, things.as_slice())?;
        Ok(Some(counts))
    }

    /// One less of the thing, if there is one.
    pub(crate) fn forget(&mut self, thing: P)
        ensures { (p : P) → times_in P.eq self.new p ≡ times_in P.eq self.old p - (if P.eq thing p then 1 else 0) }
    {
        self.lose(thing);
        self.shrink();
    }

    // One less of the thing.
    fn lose(&mut self, thing: P)
        ensures { (p : P) → times_in P.eq self.new p ≡ times_in P.eq self.old p - (if P.eq thing p then 1 else 0) }
    {
        match self {
            Group::Empty => {}
            Group::One(one) => {
                if *one == thing {
                    *self = Group::Empty;
                }
            }
            Group::Few(things) => remove_from(things, thing),
            Group::Many(counts) => uncount_in(counts, thing),
        }
    }

    // Gives back the memory of a group where nothing is left.
    fn shrink(&mut self)
        ensures { (p : P) → times_in P.eq self.new p ≡ times_in P.eq self.old p }
    {
        if self.is_empty() {
            *self = Group::Empty;
        }
    }

    // Whether nothing stands here.
    fn is_empty(&self) -> bool
        ensures { OnTrue result ((p : P) → times_in P.eq self.now p ≡ 0) }
    {
        match self {
            Group::Empty => true,
            Group::One(_) => false,
            Group::Few(things) => things.is_empty(),
            Group::Many(counts) => counts.is_empty(),
        }
    }

    /// The things that stand here, each once, in any order.
    pub(crate) fn things(&self, alloc: Global) -> Result<Vec<P>, NoMemory>
        ensures { IfOk result (λ things. HasEach P.eq (times_in P.eq self.now) things.items) }
    {
        match self {
            Group::Empty => each_once(alloc, &[]),
            Group::One(one) => only(alloc, *one),
            Group::Few(things) => each_once(alloc, things.as_slice()),
            Group::Many(counts) => keys_of(alloc, counts),
        }
    }
}
