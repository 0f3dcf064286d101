//! The forms by which the fields of a new record are looked up, which its entry lends: none is made again.
ghost use Rattle.std.specs.Prelude.{◌≡◌, ◌&&◌, Some, option_map, slice_get};
ghost use Rattle.std.specs.Option.{option_copied};
ghost use Rattle.marc_types.specs.Fields.{subfields_of, tag_of};
ghost use Rattle.heading_fields.specs.Tables.{is_subdividable};
ghost use Rattle.heading_fields.specs.Parts.{is_subdivided};
ghost use Rattle.catalogue_rules.specs.State.{new_field};
ghost use Rattle.entry_record.specs.Prepared.{heading_base_form, heading_full_form};
ghost use Rattle.linked_store.specs.Lending.{LendsForms, both_or_base, forms_lent};

use crate::wanted::is_divided;
use entry_record::Preparation;
use marc_types::{Class, Field, Form};

/// The forms by which a field is looked up, lent.
#[derive(Clone, Copy, Debug)]
pub(crate) struct LentForms<'a> {
    pub(crate) form: &'a Form,
    pub(crate) other: Option<&'a Form>,
}

/// The forms by which the entry's field at a place is looked up, if it is a heading: its full form and its base form, which are one
/// where it isn't subdivided.
pub(crate) fn lent_forms<'a>(
    item: &'a Preparation,
    field: &Field,
    place: u32,
) -> Option<LentForms<'a>>
    requires { slice_get item.now.rec.fields place ≡ Some field.now }
    ensures { LendsForms item.now.class (new_field field.now) (option_map forms_lent result) }
{
    let Some(base) = base_at(item, field, place) else {
        return None;
    };
    let Some(full) = full_at(item, field, place) else {
        return None;
    };
    Some(base_or_both(item.class(), field, base, full))
}

// The base form of the entry's field.
#[tactic(auto, unfolding(entry_record::specs::Prepared::field_form_of))]
fn base_at<'a>(item: &'a Preparation, field: &Field, place: u32) -> Option<&'a Form>
    requires { slice_get item.now.rec.fields place ≡ Some field.now }
    ensures { option_copied result ≡ heading_base_form item.now.class field.now }
{
    item.field_form(place)
}

// The full form of the entry's field.
#[tactic(auto, unfolding(entry_record::specs::Prepared::full_form_of))]
fn full_at<'a>(item: &'a Preparation, field: &Field, place: u32) -> Option<&'a Form>
    requires { slice_get item.now.rec.fields place ≡ Some field.now }
    ensures { option_copied result ≡ heading_full_form item.now.class field.now }
{
    item.full_form(place)
}

// Both forms where the field is subdivided: then they may differ.
fn base_or_both<'a>(class: Class, field: &Field, base: &'a Form, full: &'a Form) -> LentForms<'a>
    ensures { forms_lent result ≡ both_or_base (is_subdividable class (tag_of field.now) && is_subdivided (subfields_of field.now)) full.now base.now }
{
    if is_divided(class, field) {
        LentForms {
            form: full,
            other: Some(base),
        }
    } else {
        LentForms {
            form: base,
            other: None,
        }
    }
}
