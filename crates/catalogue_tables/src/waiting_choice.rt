//! What a field that waits is to be linked to, by the numbers of its row: no form is made, and none is looked up by its text.
ghost use Rattle.std.specs.Prelude.{◌≡◌, IfOk, Some};
ghost use Rattle.wait_table.specs.Table.{waits};
ghost use Rattle.catalogue_rules.specs.State.{kept_field};
ghost use Rattle.catalogue_tables.specs.Asked.{IsRowOfField, first_of, last_of};
ghost use Rattle.catalogue_tables.specs.Choosing.{AnswersAs};
ghost use Rattle.catalogue_tables.specs.Answers.{HoldsUnderAny, IsBaseNumberAnswer, IsFullNumberAnswer, IsNumberAnswer, IsRowAnswer, IsTakerByRow, heading_answer};

use crate::choosing::{Chosen, Taker, asks_base, chosen_among, link};
use crate::tables::CatalogueTables;
use form_index::Among;
use heading_fields::{heading_kind, takes_subdivisions};
use marc_types::{Class, Field, Key, NoMemory, Tie};
use numbering::{Numbering, Seat};
use std::alloc::Global;
use wait_table::{Asked, Waiting};

fn first_of(forms: Asked) -> u32
    ensures { result ≡ first_of forms }
{
    match forms {
        Asked::One(form) | Asked::Two(form, _) => form,
    }
}

fn last_of(forms: Asked) -> u32
    ensures { result ≡ last_of forms }
{
    match forms {
        Asked::One(form) | Asked::Two(_, form) => form,
    }
}

impl CatalogueTables {
    /// What the unlinked field at a seat is to be linked to, if it is a heading: then the seat has its row, by which it is chosen for.
    /// It takes memory for named keys alone.
    pub fn choose_at(
        &self,
        alloc: Global,
        keys: &Numbering<Key>,
        seat: Seat,
        field: &Field,
        tie: &Tie,
    ) -> Result<Option<Chosen>, NoMemory>
        requires { IsRowOfField self.now.forms seat.class (kept_field field.now tie.now) ((waits self.now.waits).waiting seat) }
        ensures { IfOk result (AnswersAs self.now.forms keys.now self.now.index
            (heading_answer keys.now seat.class (kept_field field.now tie.now))) }
    {
        let Some(row) = self.waits.row(seat) else {
            return Ok(None);
        };
        let chosen = self.choose_waiting(alloc, keys, seat.class, field, tie, row)?;
        Ok(Some(chosen))
    }

    // The same of a heading whose row is given.
    fn choose_waiting(
        &self,
        alloc: Global,
        keys: &Numbering<Key>,
        class: Class,
        field: &Field,
        tie: &Tie,
        row: &Waiting,
    ) -> Result<Chosen, NoMemory>
        requires { IsRowOfField self.now.forms class (kept_field field.now tie.now) (Some row.now) }
        ensures { IfOk result (λ made. AnswersAs self.now.forms keys.now self.now.index
            (heading_answer keys.now class (kept_field field.now tie.now)) (Some made)) }
    {
        match self.taker_named(alloc, keys, class, field, tie, row)? {
            Some(taker) => Ok(link(taker, class, field, tie)),
            None => Ok(self.choose_by_numbers(class, field, tie, row)),
        }
    }

    // The authority that takes a field by number. Where its row has no key and it awaits none, no `$0` is looked at.
    fn taker_named(
        &self,
        alloc: Global,
        keys: &Numbering<Key>,
        class: Class,
        field: &Field,
        tie: &Tie,
        row: &Waiting,
    ) -> Result<Option<Taker>, NoMemory>
        ensures { IfOk result (IsTakerByRow self.now.forms keys.now self.now.index class (kept_field field.now tie.now) row.now) }
    {
        if row.keys.is_empty() && tie.awaits.is_none() {
            return Ok(None);
        }
        let Some(kind) = heading_kind(field, class) else {
            return Ok(None);
        };
        self.taker_by_number(alloc, keys, class, kind, field, tie)
    }

    // By its full form among all authorities, else by its base form among those with a bare heading.
    fn choose_by_numbers(&self, class: Class, field: &Field, tie: &Tie, row: &Waiting) -> Chosen
        ensures { HoldsUnderAny self.now.forms self.now.index
            (IsRowAnswer self.now.forms class (kept_field field.now tie.now) row.now result) }
    {
        match self.by_full_number(class, field, first_of(row.forms)) {
            Some(chosen) => chosen,
            None => self.by_base_number(class, field, tie, last_of(row.forms)),
        }
    }

    fn by_full_number(&self, class: Class, field: &Field, number: u32) -> Option<Chosen>
        ensures { HoldsUnderAny self.now.forms self.now.index (IsFullNumberAnswer self.now.forms class field.now number result) }
    {
        if takes_subdivisions(field.tag(), class) {
            self.by_number(number, Among::All, true)
        } else {
            None
        }
    }

    fn by_base_number(&self, class: Class, field: &Field, tie: &Tie, number: u32) -> Chosen
        ensures { HoldsUnderAny self.now.forms self.now.index
            (IsBaseNumberAnswer self.now.forms class (kept_field field.now tie.now) number result) }
    {
        if !asks_base(class, field, tie) {
            return Chosen::Unlinked;
        }
        match self.by_number(number, Among::Bare, false) {
            Some(chosen) => chosen,
            None => Chosen::Unlinked,
        }
    }

    // The choice by the form that has the number: those with it as their heading, and where there is none those with it as a see-from
    // heading.
    fn by_number(&self, number: u32, among: Among, whole: bool) -> Option<Chosen>
        ensures { HoldsUnderAny self.now.forms self.now.index (IsNumberAnswer self.now.forms among whole number result) }
    {
        chosen_among(self.index.candidates(number, among), whole)
    }
}
