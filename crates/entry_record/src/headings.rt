//! The forms of a record's heading fields, each made once.
ghost use Rattle.std.specs.Prelude.{◌≡◌, IfOk, Some, map, option_and_then, slice_get, unwrap_or};
ghost use Rattle.std.specs.Option.{option_copied};
ghost use Rattle.entry_record.specs.Headings.{is_divided, divided_form, filled_forms, heading_forms};

use crate::part_forms::{base_form, full_form};
use heading_fields::{has_subdivision, heading_kind, takes_subdivisions};
use marc_types::{Class, Field, Form, Kind, NoMemory, Sequence, TryCopy};
use std::alloc::Global;

/// The base form of a heading field, and its full form where its subdivisions make that another one.
#[derive(Debug, Drop)]
pub(crate) struct HeadingForms {
    pub(crate) base: Form,
    pub(crate) divided: Option<Form>,
}

/// For each field of a record its forms, where it is a heading field.
pub(crate) type Headings = Sequence<Option<HeadingForms>>;

impl HeadingForms {
    pub(crate) fn full(&self) -> &Form
        ensures { result.now ≡ unwrap_or self.now.divided self.now.base }
    {
        match &self.divided {
            Some(form) => form,
            None => &self.base,
        }
    }

    pub(crate) fn into_full(self) -> Form
        ensures { result ≡ unwrap_or self.divided self.base }
    {
        let HeadingForms { base, divided } = self;
        divided.unwrap_or(base)
    }
}

impl TryCopy for HeadingForms {
    fn copy(&self, alloc: Global) -> Result<Self, NoMemory> {
        Ok(HeadingForms {
            base: self.base.copy(alloc)?,
            divided: self.divided.copy(alloc)?,
        })
    }
}

/// The forms of the field at a place, where it is a heading field.
pub(crate) fn forms_at(headings: &[Option<HeadingForms>], field: u32) -> Option<&HeadingForms>
    ensures { option_copied result ≡ option_and_then (λ forms. forms) (slice_get headings.now field) }
{
    match headings.get(field as usize) {
        Some(Some(forms)) => Some(forms),
        _ => None,
    }
}

pub(crate) fn is_divided(field: &Field, class: Class) -> bool
    ensures { result ≡ is_divided class field.now }
{
    takes_subdivisions(field.tag(), class) && has_subdivision(field)
}

fn divided_form(
    alloc: Global,
    field: &Field,
    kind: Kind,
    class: Class,
) -> Result<Option<Form>, NoMemory>
    ensures { IfOk result (λ made. made ≡ divided_form kind class field.now) }
{
    if !is_divided(field, class) {
        return Ok(None);
    }
    Ok(Some(full_form(alloc, field, kind, class)?))
}

/// The forms of a field of that kind; none where its base form is empty.
#[tactic(auto, unfolding(crate::specs::Headings::filled_forms, crate::specs::Authority::has_form))]
pub(crate) fn forms_of_kind(
    alloc: Global,
    field: &Field,
    kind: Kind,
    class: Class,
) -> Result<Option<HeadingForms>, NoMemory>
    ensures { IfOk result (λ made. made ≡ filled_forms class field.now (Some kind)) }
{
    let base = base_form(alloc, field, kind)?;
    if base.items.is_empty() {
        return Ok(None);
    }
    let divided = divided_form(alloc, field, kind, class)?;
    Ok(Some(HeadingForms { base, divided }))
}

#[tactic(auto, unfolding(crate::specs::Headings::filled_forms))]
fn forms_of_field(
    alloc: Global,
    field: &Field,
    class: Class,
) -> Result<Option<HeadingForms>, NoMemory>
    ensures { IfOk result (λ made. made ≡ heading_forms class field.now) }
{
    match heading_kind(field, class) {
        Some(kind) => forms_of_kind(alloc, field, kind, class),
        None => Ok(None),
    }
}

/// The forms of each heading field.
pub(crate) fn heading_forms(
    alloc: Global,
    fields: &[Field],
    class: Class,
) -> Result<Headings, NoMemory>
    ensures { IfOk result (λ made. made ≡ map (heading_forms class) fields.now) }
{
    let mut headings = Vec::with_capacity(alloc, fields.len())?;
    for field in fields {
        headings.push(forms_of_field(alloc, field, class)?)?;
    }
    Ok(Headings::from_vec(headings))
}
