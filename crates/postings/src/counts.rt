ghost use Rattle.std.specs.Prelude.{◌≡◌, ℕ, nat_eq, OnOk, OnErr, IfOk};
ghost use Rattle.postings.specs.Counts.{times, once, brought, TimesSame, TimesMore, TimesLess};
ghost use Rattle.postings.specs.Listed.{HasEach};

use crate::Group;
use marc_types::NoMemory;
use numbering::Pages;
use std::alloc::Global;

/// How often each thing stands under each name. Names are numbers.
#[derive(Drop)]
pub struct Counts<P: Ord> {
    groups: Pages<Group<P>>,
}

impl<P: Ord + Copy> Counts<P> {
    /// Nothing stands anywhere.
    pub fn new(alloc: Global) -> Counts<P>
        ensures { (name : ℕ) (thing : P) → times P.eq result.groups name thing ≡ 0 }
    {
        Counts {
            groups: Pages::new(alloc),
        }
    }

    /// One more of the thing under the name. `NoMemory` leaves all counts as they were.
    pub fn note(&mut self, alloc: Global, name: u32, thing: P) -> Result<(), NoMemory>
        ensures ok { OnOk result (TimesMore (once nat_eq P.eq name thing) (times P.eq self.old.groups) (times P.eq self.new.groups)) }
        ensures err { OnErr result (TimesSame (times P.eq self.old.groups) (times P.eq self.new.groups)) }
    {
        self.groups.reach(alloc, name)?;
        self.groups.row_mut(name).note(alloc, thing)?;
        Ok(())
    }

    /// One less of the thing under the name, if there is one.
    pub fn forget(&mut self, name: u32, thing: P)
        ensures { TimesLess (once nat_eq P.eq name thing) (times P.eq self.old.groups) (times P.eq self.new.groups) }
    {
        if let Some(group) = self.groups.get_mut(name) {
            group.forget(thing);
        }
    }

    /// One more of the thing under each of the names. `NoMemory` leaves all counts as they were.
    pub fn note_all(&mut self, alloc: Global, names: &[u32], thing: P) -> Result<(), NoMemory>
        ensures ok { OnOk result (TimesMore (brought nat_eq P.eq names.now thing) (times P.eq self.old.groups) (times P.eq self.new.groups)) }
        ensures err { OnErr result (TimesSame (times P.eq self.old.groups) (times P.eq self.new.groups)) }
    {
        for i in 0..names.len() {
            if let Err(error) = self.note(alloc, names[i], thing) {
                self.forget_all(&names[..i], thing);
                return Err(error);
            }
        }
        Ok(())
    }

    /// One less of the thing under each of the names, as far as there are any.
    pub fn forget_all(&mut self, names: &[u32], thing: P)
        ensures { TimesLess (brought nat_eq P.eq names.now thing) (times P.eq self.old.groups) (times P.eq self.new.groups) }
    {
        for i in 0..names.len() {
            self.forget(names[i], thing);
        }
    }

    /// The things that stand under the name, each once, in any order.
    pub fn things(&self, alloc: Global, name: u32) -> Result<Vec<P>, NoMemory>
        ensures { IfOk result (λ things. HasEach P.eq (times P.eq self.now.groups name) things.items) }
    {
        match self.groups.get(name) {
            None => Ok(Vec::new(alloc)),
            Some(group) => group.things(alloc),
        }
    }
}
