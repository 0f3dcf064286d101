//! The forms under which an authority is found, each made once.
ghost use Rattle.std.specs.Prelude.{◌≡◌, ◌≤◌, ◌++◌, [], ◌∷◌, Some, None, IfOk, OnOk};
ghost use Rattle.marc_types.specs.Valid.{field_size, fields_size, subfields_size};
ghost use Rattle.marc_types.specs.declared.key.Key.{Key};
ghost use Rattle.entry_record.specs.Authority.{is_short_in_full, linkable_of, see_from_forms};
ghost use Rattle.entry_record.specs.Prepared.{authority_in, has_bare_heading};
ghost use Rattle.entry_record.specs.Access.{IsAccessTo};
ghost use Rattle.entry_record.specs.Headings.{filled_full_form, established_form, is_tracing_tag};

use crate::admission::{LONGEST_HEADING, heading, is_see_from};
use crate::headings::{forms_of_kind, is_divided};
use heading_fields::{authority_kind, full, has_subdivision, heading_len};
use marc_types::{Class, Field, Form, Forms, Kind, NoMemory, Subfield};
use std::alloc::Global;

/// The established form of an authority that fields can be linked to, and its see from forms.
#[derive(Debug, Drop)]
pub(crate) struct Access {
    pub(crate) established: Option<Form>,
    pub(crate) see_from: Forms,
}

fn no_access(alloc: Global) -> Access
    ensures { IsAccessTo None result }
{
    Access {
        established: None,
        see_from: Forms::from_vec(Vec::new(alloc)),
    }
}

fn part_len(part: &[Subfield]) -> u64
    requires { subfields_size part.now ≤ 1000000 }
    ensures { result ≡ subfields_size part.now }
{
    let mut len = 0;
    for subfield in part {
        len += 2 + subfield.text.len() as u64;
    }
    len
}

/// Whether the heading with its subdivisions isn't too long.
#[tactic(auto, using(crate::proofs::Undivided::undivided_size, crate::proofs::Undivided::full_small))]
fn is_short_in_full(alloc: Global, heading: &Field, kind: Kind) -> Result<bool, NoMemory>
    requires { field_size heading.now ≤ 1000000 }
    ensures { IfOk result (λ short. short ≡ is_short_in_full heading.now kind) }
{
    if !is_divided(heading, Class::Authority) {
        return Ok(heading_len(heading, kind) <= LONGEST_HEADING);
    }
    let part = full(alloc, heading, kind, Class::Authority)?;
    Ok(part_len(part.as_slice()) <= LONGEST_HEADING)
}

#[tactic(auto, using(crate::proofs::Undivided::filled_some, crate::proofs::Undivided::filled_none))]
/// The full form of a field of that kind, unless its base form is empty.
fn filled_form(alloc: Global, field: &Field, kind: Kind) -> Result<Option<Form>, NoMemory>
    ensures { IfOk result (λ form. form ≡ filled_full_form field.now kind) }
{
    let forms = forms_of_kind(alloc, field, kind, Class::Authority)?;
    match forms {
        Some(forms) => Ok(Some(forms.into_full())),
        None => Ok(None),
    }
}

#[tactic(auto, using(crate::proofs::Accessible::kindless, crate::proofs::Accessible::too_long, crate::proofs::Accessible::short_enough))]
/// The established form of a heading that fields can be linked to.
fn established_form(alloc: Global, heading: &Field) -> Result<Option<Form>, NoMemory>
    requires { field_size heading.now ≤ 1000000 }
    ensures { IfOk result (λ form. form ≡ established_form heading.now) }
{
    let Some(kind) = authority_kind(heading.tag()) else {
        return Ok(None);
    };
    if !is_short_in_full(alloc, heading, kind)? {
        return Ok(None);
    }
    filled_form(alloc, heading, kind)
}

fn is_tracing_tag(field: &Field, kind: Kind) -> bool
    ensures { result ≡ is_tracing_tag kind field.now }
{
    is_see_from(field) && authority_kind(field.tag()) == Some(kind)
}

#[tactic(auto, using(crate::proofs::Accessible::no_tracing, crate::proofs::Accessible::one_tracing, crate::proofs::Accessible::empty_tracing))]
fn append_see_from(
    alloc: Global,
    out: &mut Vec<Form>,
    field: &Field,
    kind: Kind,
) -> Result<(), NoMemory>
    ensures { OnOk result (out.new.items ≡ out.old.items ++ see_from_forms kind (field.now ∷ [])) }
{
    if !is_tracing_tag(field, kind) {
        return Ok(());
    }
    match filled_form(alloc, field, kind)? {
        Some(form) => {
            out.push(form)?;
            Ok(())
        }
        None => Ok(()),
    }
}

#[tactic(auto, using(crate::proofs::Accessible::tracings_more))]
/// The full forms of the see from tracings of that kind.
fn see_from_forms(alloc: Global, fields: &[Field], kind: Kind) -> Result<Forms, NoMemory>
    ensures { IfOk result (λ forms. forms ≡ see_from_forms kind fields.now) }
{
    let mut forms = Vec::new(alloc);
    for field in fields {
        append_see_from(alloc, &mut forms, field, kind)?;
    }
    Ok(Forms::from_vec(forms))
}

fn authority_access(alloc: Global, fields: &[Field]) -> Result<Access, NoMemory>
    requires { fields_size fields.now ≤ 1000000 }
    ensures { IfOk result (λ access. (key : Key) → IsAccessTo (linkable_of key fields.now) access) }
{
    let Some(heading) = heading(fields) else {
        return Ok(no_access(alloc));
    };
    let Some(established) = established_form(alloc, heading)? else {
        return Ok(no_access(alloc));
    };
    let see_from = see_from_forms(alloc, fields, established.kind)?;
    Ok(Access {
        established: Some(established),
        see_from,
    })
}

/// The forms under which the authority is found whose record has those fields.
pub(crate) fn access_of(alloc: Global, fields: &[Field], class: Class) -> Result<Access, NoMemory>
    requires { fields_size fields.now ≤ 1000000 }
    ensures { IfOk result (λ access. (key : Key) → IsAccessTo (authority_in class key fields.now) access) }
{
    match class {
        Class::Authority => authority_access(alloc, fields),
        Class::Bibliographic => Ok(no_access(alloc)),
    }
}

/// Whether the heading of an authority record has no subdivision.
pub(crate) fn has_bare_heading(fields: &[Field]) -> bool
    ensures { result ≡ has_bare_heading fields.now }
{
    match heading(fields) {
        Some(field) => !has_subdivision(field),
        None => true,
    }
}
