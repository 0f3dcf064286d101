//! The groups of records that share a number, and their lines.
ghost use Rattle.std.specs.Prelude.{◌≡◌, ◌++◌, ◌∷◌, [], List, filter, is_some, IfOk, OnOk};
ghost use Rattle.std.specs.Io.KnownBytes.{Appends};
ghost use Rattle.outside.specs.Fault.{HasCause};
ghost use Rattle.outside.specs.Sink.{WritesFront};
ghost use Rattle.match_report.specs.Postings.{Posting};
ghost use Rattle.match_report.specs.Groups.{groups_of, is_match, number_group, lines_of};
ghost use Rattle.match_report.specs.Walk.{matching, matches_from};

use crate::number::Number;
use crate::posting::PostingRef;
use crate::writing::write_lines;
use marc_types::NoMemory;
use outside::{Failed, Sink};
use packed_keys::PackedKey;
use std::alloc::Global;
use std::collections::BTreeSet;
use std::marker::Model;
use std::mem;

/// A number, and the keys of the records that have it.
#[derive(Drop)]
pub(crate) struct Group<'a> {
    pub number: &'a Number,
    pub keys: Vec<&'a PackedKey>,
}

impl<'a> Model for Group<'a> {
    ghost use Rattle.std.specs.Prelude.{map};
    ghost use Rattle.match_report.specs.Groups.{NumberGroup};

    ghost Value = { NumberGroup };

    ghost view = { λ g. record { number = g.number.now; keys = map (λ key. key.now) g.keys.items } };
}

impl<'a> Group<'a> {
    fn begin(alloc: Global, first: &PostingRef<'a>) -> Result<Group<'a>, NoMemory>
        ensures { IfOk result (λ group. group ≡ number_group first.now.number (first.now.key ∷ [])) }
    {
        let mut keys = Vec::with_capacity(alloc, 1)?;
        keys.push(first.key)?;
        Ok(Group {
            number: first.number,
            keys,
        })
    }

    fn join(&mut self, next: &PostingRef<'a>) -> Result<(), NoMemory>
        ensures { OnOk result (self.new ≡ number_group self.old.number (self.old.keys ++ next.now.key ∷ [])) }
    {
        self.keys.push(next.key)?;
        Ok(())
    }
}

/// The groups of two records or more that share a number, in the order of the numbers. Contracts see them as a list.
#[derive(Drop)]
pub struct Groups<'a> {
    groups: Vec<Group<'a>>,
}

impl<'a> Model for Groups<'a> {
    ghost use Rattle.std.specs.Prelude.{List};
    ghost use Rattle.match_report.specs.Groups.{NumberGroup};

    ghost Value = { List NumberGroup };

    ghost view = { λ g. g.groups.items };
}

impl<'a> Groups<'a> {
    /// Takes a group, where it is one of two or more.
    fn add(&mut self, group: Group<'a>) -> Result<(), NoMemory>
        ensures { OnOk result (self.new ≡ self.old ++ matching group.entry) }
    {
        if group.keys.len() >= 2 {
            self.groups.push(group)?;
        }
        Ok(())
    }

    /// Takes what is next behind a group that may grow.
    fn take(
        &mut self,
        alloc: Global,
        group: &mut Group<'a>,
        next: &PostingRef<'a>,
    ) -> Result<(), NoMemory>
        ensures { OnOk result ((rest : List Posting) → self.new ++ matches_from group.new rest ≡ self.old ++ matches_from group.old (next.now ∷ rest)) }
    {
        if group.number.is_same(next.number) {
            return group.join(next);
        }
        let new = Group::begin(alloc, next)?;
        let done = mem::replace(group, new);
        self.add(done)
    }
}

impl Groups<'_> {
    /// Writes a line for each group, and one that tells how many there are; takes no memory. After `Failed` some front of the
    /// lines was written, maybe none or all.
    pub fn write<K: Sink>(&self, out: &mut K) -> Result<(), Failed>
        ensures bytes { OnOk result (Appends (K.written out.old) (K.written out.new) (lines_of self.now)) }
        ensures front { WritesFront (K.written out.old) (K.written out.new) (lines_of self.now) }
        ensures tells { is_some (K.written out.new) ≡ is_some (K.written out.old) }
        ensures cause { HasCause (K.faults out.old) (K.faults out.new) result }
    {
        write_lines(self.groups.as_slice(), out)
    }
}

/// The groups of two or more among postings in order.
#[tactic(auto, using(crate::proofs::Walks::matches_walked))]
pub(crate) fn groups_among<'a>(
    alloc: Global,
    held: BTreeSet<PostingRef<'a>>,
) -> Result<Groups<'a>, NoMemory>
    ensures { IfOk result (λ groups. groups ≡ filter is_match (groups_of held.entry.keys)) }
{
    let mut groups = Groups {
        groups: Vec::new(alloc),
    };
    let mut rest = held.iter();
    let Some(first) = rest.next() else {
        return Ok(groups);
    };
    let mut group = Group::begin(alloc, first)?;
    for next in rest {
        groups.take(alloc, &mut group, next)?;
    }
    groups.add(group)?;
    Ok(groups)
}
