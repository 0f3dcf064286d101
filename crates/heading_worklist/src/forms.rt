//! The forms of a field that is a heading.
ghost use Rattle.std.specs.Prelude.{◌≡◌, option_map, IfOk};
ghost use Rattle.entry_record.specs.Authority.{heading_kind as kind_of_heading};
ghost use Rattle.heading_worklist.specs.Found.{forms_as};

use entry_record::{base_form, full_form};
use heading_fields::heading_kind;
use marc_types::{Class, Field, Form, Kind, NoMemory};
use std::alloc::Global;

/// The kind of a heading, its full form and its base form.
#[derive(Drop)]
pub(crate) struct HeadingForms {
    pub(crate) kind: Kind,
    pub(crate) full: Form,
    pub(crate) base: Form,
}

/// The forms of a field; none where it is no heading of its class.
#[tactic(auto, unfolding(entry_record::specs::Authority::heading_kind, entry_record::specs::Authority::has_form))]
pub(crate) fn forms_of(
    alloc: Global,
    class: Class,
    field: &Field,
) -> Result<Option<HeadingForms>, NoMemory>
    ensures { IfOk result (λ forms. forms ≡ option_map (forms_as class field.now) (kind_of_heading class field.now)) }
{
    let Some(kind) = heading_kind(field, class) else {
        return Ok(None);
    };
    let base = base_form(alloc, field, kind)?;
    if base.items.is_empty() {
        return Ok(None);
    }
    let full = full_form(alloc, field, kind, class)?;
    Ok(Some(HeadingForms { kind, full, base }))
}
