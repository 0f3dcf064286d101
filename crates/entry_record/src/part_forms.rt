//! The forms of a field's parts, made from the subfields as they stand in it.
ghost use Rattle.std.specs.Prelude.{◌≡◌, [], ◌∷◌, ◌++◌, IfOk, OnOk, filter};
ghost use Rattle.heading_fields.specs.Parts.{is_part, part};
ghost use Rattle.naco_form.specs.Form.{form_of, items_of};
ghost use Rattle.entry_record.specs.Authority.{base_form, full_form};

use heading_fields::{belongs, part_count, part_region, takes_subdivisions};
use marc_types::{Class, Field, Form, Item, Items, Kind, NoMemory, Subfield};
use naco_form::append_item;
use std::alloc::Global;

/// The form of the base part of a field.
pub fn base_form(alloc: Global, field: &Field, kind: Kind) -> Result<Form, NoMemory>
    ensures { IfOk result (λ made. made ≡ base_form kind field.now) }
{
    part_form(alloc, field.subfields(), kind, false)
}

/// The form of the full part of a field.
pub fn full_form(alloc: Global, field: &Field, kind: Kind, class: Class) -> Result<Form, NoMemory>
    ensures { IfOk result (λ made. made ≡ full_form kind class field.now) }
{
    let whole = takes_subdivisions(field.tag(), class);
    part_form(alloc, field.subfields(), kind, whole)
}

#[tactic(auto, unfolding(heading_fields::specs::Parts::part, naco_form::specs::Form::form_of))]
fn part_form(
    alloc: Global,
    subfields: &[Subfield],
    kind: Kind,
    whole: bool,
) -> Result<Form, NoMemory>
    ensures { IfOk result (λ made. made ≡ form_of kind (part whole kind subfields.now)) }
{
    let region = part_region(subfields, whole);
    let mut items = Vec::with_capacity(alloc, part_count(region, kind, whole))?;
    append_items(alloc, &mut items, region, kind, whole)?;
    Ok(Form {
        kind,
        items: Items::from_vec(items),
    })
}

/// Appends the items of the subfields that belong to the part.
fn append_items(
    alloc: Global,
    items: &mut Vec<Item>,
    region: &[Subfield],
    kind: Kind,
    whole: bool,
) -> Result<(), NoMemory>
    ensures { OnOk result (items.new.items ≡ items.old.items ++ items_of (filter (is_part whole kind) region.now)) }
{
    for subfield in region {
        append_of_part(alloc, items, subfield, kind, whole)?;
    }
    Ok(())
}

#[tactic(auto, using(crate::proofs::PartItems::not_of_part))]
fn append_of_part(
    alloc: Global,
    items: &mut Vec<Item>,
    subfield: &Subfield,
    kind: Kind,
    whole: bool,
) -> Result<(), NoMemory>
    ensures { OnOk result (items.new.items ≡ items.old.items ++ items_of (filter (is_part whole kind) (subfield.now ∷ []))) }
{
    if belongs(subfield, kind, whole) {
        append_item(alloc, items, subfield)?;
    }
    Ok(())
}
