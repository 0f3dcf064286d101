ghost use Rattle.std.specs.Prelude.{◌≡◌, ◌<◌, [], length, true, OnOk, OnErr};
ghost use Rattle.form_index.specs.Listed.{InOrder, IsShort, SameLists, Stepped, SteppedAt, each_of, is_once, list_at, lists_in, released, stepped, with_held};

use crate::key_list::{KeyList, Step};
use marc_types::{Key, NoMemory};
use numbering::{Numbering, Pages};
use std::alloc::Global;
use std::marker::Model;

/// A list of key numbers for each form, by the form's number. Forms that weren't reached have blank lists.
#[derive(Drop)]
pub(crate) struct Lists {
    lists: Pages<KeyList>,
}

impl Model for Lists {
    ghost use Rattle.std.specs.Prelude.{List};
    ghost use Rattle.form_index.specs.Trimmed.{trimmed};
    ghost use Rattle.form_index.specs.Listed.{Listed, is_no_list, lists_in};

    ghost Value = { List Listed };

    ghost view = { λ s. trimmed is_no_list (lists_in s.lists) };
}

impl Lists {
    pub(crate) fn new(alloc: Global) -> Lists
        ensures { result ≡ [] }
    {
        Lists {
            lists: Pages::new(alloc),
        }
    }

    /// The numbers that have the form, in key order.
    pub(crate) fn live(&self, form: u32) -> &[u32]
        ensures { result.now ≡ (list_at self.now form).live }
    {
        live_at(&self.lists, form)
    }

    /// Makes a place for the number in the list of each of these forms.
    pub(crate) fn hold(&mut self, alloc: Global, number: u32, forms: &[u32]) -> Result<(), NoMemory>
        requires { is_once forms.now ≡ true }
        ensures ok { OnOk result (Stepped forms.now (with_held number) self.old self.new) }
        ensures err { OnErr result (self.new ≡ self.old) }
        ensures short { IsShort self.new }
    {
        hold_each(&mut self.lists, alloc, number, forms)
    }

    /// Gives up the places that are held for the number in the lists of these forms.
    pub(crate) fn release(&mut self, number: u32, forms: &[u32])
        requires { is_once forms.now ≡ true }
        ensures { self.new ≡ each_of forms.now (released number) self.old }
    {
        release_each(&mut self.lists, number, forms);
    }

    /// Moves the number into the order of each of these lists, or out of it.
    pub(crate) fn step(&mut self, step: Step, keys: &Numbering<Key>, number: u32, forms: &[u32])
        requires known { number < length keys.now }
        requires once { is_once forms.now ≡ true }
        requires ordered { InOrder keys.now self.old }
        ensures stepped { self.new ≡ each_of forms.now (stepped keys.now number step) self.old }
        ensures ordered { InOrder keys.now self.new }
    {
        step_each(&mut self.lists, step, keys, number, forms);
    }
}

fn live_at(lists: &Pages<KeyList>, form: u32) -> &[u32]
    ensures { result.now ≡ (list_at (lists_in lists.now) form).live }
{
    match lists.get(form) {
        Some(list) => list.live(),
        None => &[],
    }
}

fn step_each(
    lists: &mut Pages<KeyList>,
    step: Step,
    keys: &Numbering<Key>,
    number: u32,
    forms: &[u32],
)
    requires known { number < length keys.now }
    requires once { is_once forms.now ≡ true }
    requires ordered { InOrder keys.now (lists_in lists.old) }
    ensures stepped { Stepped forms.now (stepped keys.now number step) (lists_in lists.old) (lists_in lists.new) }
    ensures ordered { InOrder keys.now (lists_in lists.new) }
{
    for form in forms {
        step_at(lists, step, keys, number, *form);
    }
}

fn step_at(lists: &mut Pages<KeyList>, step: Step, keys: &Numbering<Key>, number: u32, form: u32)
    requires known { number < length keys.now }
    requires ordered { InOrder keys.now (lists_in lists.old) }
    ensures stepped { SteppedAt form (stepped keys.now number step) (lists_in lists.old) (lists_in lists.new) }
    ensures ordered { InOrder keys.now (lists_in lists.new) }
{
    if let Some(list) = lists.get_mut(form) {
        list.step(step, keys, number);
    }
}

fn release_each(lists: &mut Pages<KeyList>, number: u32, forms: &[u32])
    requires once { is_once forms.now ≡ true }
    ensures { Stepped forms.now (released number) (lists_in lists.old) (lists_in lists.new) }
{
    for form in forms {
        release_at(lists, number, *form);
    }
}

fn release_at(lists: &mut Pages<KeyList>, number: u32, form: u32)
    ensures { SteppedAt form (released number) (lists_in lists.old) (lists_in lists.new) }
{
    if let Some(list) = lists.get_mut(form) {
        list.release(number);
    }
}

// Makes a place in each of these lists. Where memory ends, the places that were made are given up.
fn hold_each(
    lists: &mut Pages<KeyList>,
    alloc: Global,
    number: u32,
    forms: &[u32],
) -> Result<(), NoMemory>
    requires { is_once forms.now ≡ true }
    ensures ok { OnOk result (Stepped forms.now (with_held number) (lists_in lists.old) (lists_in lists.new)) }
    ensures err { OnErr result (SameLists (lists_in lists.old) (lists_in lists.new)) }
{
    for (i, form) in forms.iter().enumerate() {
        if let Err(fault) = hold_at(lists, alloc, number, *form) {
            release_each(lists, number, &forms[..i]);
            return Err(fault);
        }
    }
    Ok(())
}

fn hold_at(
    lists: &mut Pages<KeyList>,
    alloc: Global,
    number: u32,
    form: u32,
) -> Result<(), NoMemory>
    ensures ok { OnOk result (SteppedAt form (with_held number) (lists_in lists.old) (lists_in lists.new)) }
    ensures err { OnErr result (SameLists (lists_in lists.old) (lists_in lists.new)) }
{
    lists.reach(alloc, form)?;
    lists.row_mut(form).hold(number)
}
