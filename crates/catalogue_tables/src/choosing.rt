//! What an unlinked heading is to be linked to, by the tables alone: no record is visited, and no list of authorities is scanned.
ghost use Rattle.std.specs.Prelude.{◌≡◌, IfOk, option_and_then, unwrap_or};
ghost use Rattle.std.specs.Option.{option_copied};
ghost use Rattle.entry_record.specs.Authority.{base_form};
ghost use Rattle.entry_record.specs.Headings.{divided_form};
ghost use Rattle.entry_record.specs.Prepared.{heading_base_form};
ghost use Rattle.catalogue_rules.specs.Choice.{asks_base};
ghost use Rattle.catalogue_rules.specs.State.{kept_field};
ghost use Rattle.catalogue_tables.specs.Choosing.{AnswersAs, AnswersUnderAny, chosen_among, chosen_of};
ghost use Rattle.catalogue_tables.specs.Choosing.{first_taker, link_by_taker, named_taker, taker_by_number, taker_of_row, taker_under};
ghost use Rattle.catalogue_tables.specs.Answers.{HoldsUnderAny, IsBaseAnswer, IsFullAnswer, form_answer, forms_answer, heading_answer, kind_answer};

use crate::naming::named_key;
use crate::tables::CatalogueTables;
use form_index::{Among, Candidates, RowForms};
use heading_fields::{controlled, full, has_subdivision, heading_kind, takes_subdivisions};
use marc_types::{Class, Field, Form, Key, Kind, NoMemory, Subfield, Tie};
use naco_form::form;
use numbering::Numbering;
use std::alloc::Global;

/// What an unlinked heading is to be linked to.
#[derive(Clone, Copy, Debug, PartialEq, Eq)]
pub enum Chosen {
    /// The authority under the key with this number, whole or by its base.
    Link { number: u32, whole: bool },
    /// Several authorities could be meant.
    Ambiguous,
    Unlinked,
}

/// An authority that can take a field by number: the number of its key, and whether its heading is bare.
#[derive(Clone, Copy, Debug)]
pub(crate) struct Taker {
    pub(crate) number: u32,
    pub(crate) bare: bool,
}

/// The link that a field has to the authority that takes it by number.
pub(crate) fn link(taker: Taker, class: Class, field: &Field, tie: &Tie) -> Chosen
    ensures { result ≡ link_by_taker class (kept_field field.now tie.now) taker }
{
    let whole = takes_subdivisions(field.tag(), class)
        && (tie.whole || !has_subdivision(field) || !taker.bare);
    Chosen::Link {
        number: taker.number,
        whole,
    }
}

/// One number is a link, two or more are ambiguous.
fn chosen_of(numbers: &[u32], whole: bool) -> Option<Chosen>
    ensures { result ≡ chosen_of whole numbers.now }
{
    match numbers {
        [] => None,
        [number] => Some(Chosen::Link {
            number: *number,
            whole,
        }),
        _ => Some(Chosen::Ambiguous),
    }
}

pub(crate) fn chosen_among(candidates: Candidates<'_>, whole: bool) -> Option<Chosen>
    ensures { result ≡ chosen_among whole candidates.entry }
{
    match candidates {
        Candidates::Established(numbers) | Candidates::SeeFrom(numbers) => {
            chosen_of(numbers, whole)
        }
        Candidates::Nobody => None,
    }
}

/// The full form of a field, where its subdivisions make that another one than its base form.
pub(crate) fn divided_form(
    alloc: Global,
    class: Class,
    field: &Field,
    kind: Kind,
) -> Result<Option<Form>, NoMemory>
    ensures { IfOk result (λ made. made ≡ divided_form kind class field.now) }
{
    if !takes_subdivisions(field.tag(), class) || !has_subdivision(field) {
        return Ok(None);
    }
    let part = full(alloc, field, kind, class)?;
    Ok(Some(form(alloc, kind, &part)?))
}

pub(crate) fn full_or_base<'a>(base: &'a Form, divided: Option<&'a Form>) -> &'a Form
    ensures { result.now ≡ unwrap_or (option_copied divided.entry) base.now }
{
    match divided {
        Some(form) => form,
        None => base,
    }
}

/// Whether the field is looked up by its base.
pub(crate) fn asks_base(class: Class, field: &Field, tie: &Tie) -> bool
    ensures { result ≡ asks_base class (kept_field field.now tie.now) }
{
    !tie.whole && (!takes_subdivisions(field.tag(), class) || has_subdivision(field))
}

/// The base form of a field that is a heading of its class.
#[tactic(auto, unfolding(entry_record::specs::Authority::heading_kind, entry_record::specs::Authority::has_form))]
pub fn heading_form(alloc: Global, class: Class, field: &Field) -> Result<Option<Form>, NoMemory>
    ensures { IfOk result (λ made. made ≡ heading_base_form class field.now) }
{
    let Some(kind) = heading_kind(field, class) else {
        return Ok(None);
    };
    let part = controlled(alloc, field, kind)?;
    let base = form(alloc, kind, &part)?;
    if base.items.is_empty() {
        return Ok(None);
    }
    Ok(Some(base))
}

impl CatalogueTables {
    /// What an unlinked field is to be linked to, if it is a heading: then its base form is given. It takes memory for keys and
    /// full forms alone.
    pub fn choose_field(
        &self,
        alloc: Global,
        keys: &Numbering<Key>,
        class: Class,
        field: &Field,
        tie: &Tie,
        base: Option<&Form>,
    ) -> Result<Option<Chosen>, NoMemory>
        requires { option_copied base ≡ heading_base_form class field.now }
        ensures { IfOk result (AnswersAs self.now.forms keys.now self.now.index
            (heading_answer keys.now class (kept_field field.now tie.now))) }
    {
        let Some(form) = base else {
            return Ok(None);
        };
        let chosen = self.choose(alloc, keys, class, field, tie, form)?;
        Ok(Some(chosen))
    }

    /// What an unlinked heading is to be linked to, whose base form is given: by a number, else by its full form among all
    /// authorities, else by its base form among those with a bare heading.
    pub fn choose(
        &self,
        alloc: Global,
        keys: &Numbering<Key>,
        class: Class,
        field: &Field,
        tie: &Tie,
        base: &Form,
    ) -> Result<Chosen, NoMemory>
        requires { base.now ≡ base_form base.now.kind field.now }
        ensures { IfOk result (AnswersAs self.now.forms keys.now self.now.index
            (kind_answer keys.now class base.now.kind (kept_field field.now tie.now))) }
    {
        match self.taker_by_number(alloc, keys, class, base.kind, field, tie)? {
            Some(taker) => Ok(link(taker, class, field, tie)),
            None => {
                let chosen = self.choose_by_forms(alloc, class, field, tie, base)?;
                Ok(chosen)
            }
        }
    }

    /// By its full form among all authorities, else by its base form among those with a bare heading.
    fn choose_by_forms(
        &self,
        alloc: Global,
        class: Class,
        field: &Field,
        tie: &Tie,
        base: &Form,
    ) -> Result<Chosen, NoMemory>
        requires { base.now ≡ base_form base.now.kind field.now }
        ensures { IfOk result (AnswersUnderAny self.now.forms self.now.index
            (forms_answer class base.now.kind (kept_field field.now tie.now))) }
    {
        let divided = divided_form(alloc, class, field, base.kind)?;
        match self.by_full_form(class, field, base, divided.as_ref()) {
            Some(chosen) => Ok(chosen),
            None => Ok(self.by_base_form(class, field, tie, base)),
        }
    }

    fn by_full_form(
        &self,
        class: Class,
        field: &Field,
        base: &Form,
        divided: Option<&Form>,
    ) -> Option<Chosen>
        ensures { HoldsUnderAny self.now.forms self.now.index
            (IsFullAnswer class field.now base.now (option_copied divided.entry) result) }
    {
        if takes_subdivisions(field.tag(), class) {
            self.by_form(full_or_base(base, divided), Among::All, true)
        } else {
            None
        }
    }

    fn by_base_form(&self, class: Class, field: &Field, tie: &Tie, base: &Form) -> Chosen
        ensures { HoldsUnderAny self.now.forms self.now.index
            (IsBaseAnswer class (kept_field field.now tie.now) base.now result) }
    {
        if !asks_base(class, field, tie) {
            return Chosen::Unlinked;
        }
        match self.by_form(base, Among::Bare, false) {
            Some(chosen) => chosen,
            None => Chosen::Unlinked,
        }
    }

    /// The choice by a form: those with it as their heading, and where there is none those with it as a see-from heading.
    fn by_form(&self, form: &Form, among: Among, whole: bool) -> Option<Chosen>
        ensures { AnswersUnderAny self.now.forms self.now.index (form_answer among whole form.now) result }
    {
        chosen_among(self.candidates(form, among), whole)
    }

    /// The authority that takes the field by number: under the key that it awaits, else under the first key that a `$0` of it
    /// names, in order, whose authority can take it.
    pub(crate) fn taker_by_number(
        &self,
        alloc: Global,
        keys: &Numbering<Key>,
        class: Class,
        kind: Kind,
        field: &Field,
        tie: &Tie,
    ) -> Result<Option<Taker>, NoMemory>
        ensures { IfOk result (λ taker. taker ≡ taker_by_number self.now.forms keys.now self.now.index class kind (kept_field field.now tie.now)) }
    {
        let takes = takes_subdivisions(field.tag(), class);
        if let Some(taker) = self.awaited_taker(keys, tie, kind, takes) {
            return Ok(Some(taker));
        }
        self.first_taker(alloc, keys, field.subfields(), kind, takes)
    }

    fn awaited_taker(
        &self,
        keys: &Numbering<Key>,
        tie: &Tie,
        kind: Kind,
        takes: bool,
    ) -> Option<Taker>
        ensures { result ≡ option_and_then (taker_under self.now.forms keys.now self.now.index kind takes) tie.now.awaits }
    {
        let Some(key) = &tie.awaits else {
            return None;
        };
        self.taker(keys, key.key(), kind, takes)
    }

    fn first_taker(
        &self,
        alloc: Global,
        keys: &Numbering<Key>,
        subfields: &[Subfield],
        kind: Kind,
        takes: bool,
    ) -> Result<Option<Taker>, NoMemory>
        ensures { IfOk result (λ taker. taker ≡ first_taker self.now.forms keys.now self.now.index kind takes subfields.now) }
    {
        for subfield in subfields {
            if let Some(taker) = self.named_taker(alloc, keys, subfield, kind, takes)? {
                return Ok(Some(taker));
            }
        }
        Ok(None)
    }

    fn named_taker(
        &self,
        alloc: Global,
        keys: &Numbering<Key>,
        subfield: &Subfield,
        kind: Kind,
        takes: bool,
    ) -> Result<Option<Taker>, NoMemory>
        ensures { IfOk result (λ taker. taker ≡ named_taker self.now.forms keys.now self.now.index kind takes subfield.now) }
    {
        match named_key(alloc, subfield)? {
            Some(key) => Ok(self.taker(keys, &key, kind, takes)),
            None => Ok(None),
        }
    }

    /// The authority under the key, where it is of the kind and can take a field that does or doesn't take subdivisions.
    fn taker(&self, keys: &Numbering<Key>, key: &Key, kind: Kind, takes: bool) -> Option<Taker>
        ensures { result ≡ taker_under self.now.forms keys.now self.now.index kind takes key.now }
    {
        let Some(number) = keys.number_of(key) else {
            return None;
        };
        let Some(row) = self.index.row(number) else {
            return None;
        };
        self.taker_of_row(number, row, kind, takes)
    }

    fn taker_of_row(&self, number: u32, row: &RowForms, kind: Kind, takes: bool) -> Option<Taker>
        ensures { result ≡ taker_of_row self.now.forms kind takes number row.now }
    {
        let Some(form) = self.forms.at(row.established()) else {
            return None;
        };
        if kind == form.kind && (takes || row.is_bare()) {
            Some(Taker {
                number,
                bare: row.is_bare(),
            })
        } else {
            None
        }
    }
}
