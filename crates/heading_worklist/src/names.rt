//! What a record is called.
ghost use Rattle.std.specs.Prelude.{◌≡◌, ◌++◌, false, IfOk, OnOk};
ghost use Rattle.std.specs.Option.{option_map, option_map_or};
ghost use Rattle.catalogue_rules.specs.Store.{field_at};
ghost use Rattle.numbered_store.specs.Kept.{kept_record};
ghost use Rattle.heading_worklist.specs.Texts.{is_name, name_field, name_of_kept, name_text};

use crate::texts::{add_field_text, add_title};
use marc_types::{Class, Field, NoMemory};
use numbered_store::StoredRecord;
use std::alloc::Global;

// Whether the field at a place names the record.
fn names_at(class: Class, kept: &StoredRecord, place: u32) -> bool
    ensures { result ≡ option_map_or (λ h. is_name class h.field) (field_at place (kept_record kept.now)) false }
{
    match kept.tag_at(place) {
        Some(tag) => match class {
            Class::Authority => tag.a == b'1',
            Class::Bibliographic => tag.a == b'2' && tag.b == b'4' && tag.c == b'5',
        },
        None => false,
    }
}

/// The field that names a record.
pub(crate) fn name_field(
    alloc: Global,
    class: Class,
    kept: &StoredRecord,
) -> Result<Option<Field>, NoMemory>
    ensures { IfOk result (λ field. field ≡ option_map (λ h. h.field) (name_field class (kept_record kept.now))) }
{
    for place in 0..kept.field_count() {
        if names_at(class, kept, place) {
            return kept.field_at(alloc, place);
        }
    }
    Ok(None)
}

fn add_name_text(
    alloc: Global,
    cell: &mut Vec<u8>,
    class: Class,
    field: &Field,
) -> Result<(), NoMemory>
    ensures { OnOk result (cell.new.items ≡ cell.old.items ++ name_text class field.now) }
{
    match class {
        Class::Authority => add_field_text(alloc, cell, field),
        Class::Bibliographic => add_title(alloc, cell, field),
    }
}

/// What a kept record is called.
pub fn add_name(
    alloc: Global,
    cell: &mut Vec<u8>,
    class: Class,
    kept: &StoredRecord,
) -> Result<(), NoMemory>
    ensures { OnOk result (cell.new.items ≡ cell.old.items ++ name_of_kept class (kept_record kept.now)) }
{
    match name_field(alloc, class, kept)? {
        Some(field) => add_name_text(alloc, cell, class, &field),
        None => Ok(()),
    }
}
