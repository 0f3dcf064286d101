//! What an unlinked heading field waits for: the forms by which it is looked up, and the keys that it names.
ghost use Rattle.std.specs.Prelude.{◌≡◌, ◌&&◌, true, false, IfOk, OnOk};
ghost use Rattle.std.specs.List.{list_any};
ghost use Rattle.std.specs.Option.{option_map_or};
ghost use Rattle.marc_types.specs.declared.key.Key.{Key as AnyKey};
ghost use Rattle.marc_types.specs.Fields.{subfields_of, tag_of};
ghost use Rattle.marc_types.specs.Order.{same_key};
ghost use Rattle.heading_fields.specs.Numbers.{is_naming};
ghost use Rattle.heading_fields.specs.Tables.{is_subdividable};
ghost use Rattle.heading_fields.specs.Parts.{is_subdivided};
ghost use Rattle.entry_record.specs.Authority.{base_form, is_valid_key};
ghost use Rattle.catalogue_rules.specs.State.{kept_field};
ghost use Rattle.linked_store.specs.Wanted.{AsksFor, IsWanted, NamesKeys, sought_by};
ghost use Rattle.linked_store.specs.Noting.{NotesKeys, NotesProperKeys};

use catalogue_tables::{heading_form, named_key};
use heading_fields::{full, has_subdivision, takes_subdivisions};
use marc_types::{Class, Field, Form, Key, NoMemory, Subfield, Tie, TryCopy};
use naco_form::form;
use std::alloc::Global;

/// The forms by which a field is looked up.
#[derive(Drop)]
pub(crate) struct Sought {
    pub(crate) form: Form,
    pub(crate) other: Option<Form>,
}

/// What a field waits for.
#[derive(Drop)]
pub(crate) struct Wanted {
    pub(crate) sought: Sought,
    pub(crate) keys: Vec<Key>,
}

/// What a field waits for; a linked field, and one that is no heading, waits for nothing.
pub(crate) fn wants_of(
    alloc: Global,
    class: Class,
    field: &Field,
    tie: &Tie,
) -> Result<Option<Wanted>, NoMemory>
    requires { tie.now.whole ≡ true → is_subdividable class (tag_of field.now) ≡ true }
    ensures { IfOk result (IsWanted class (kept_field field.now tie.now)) }
{
    if tie.key.is_some() {
        return Ok(None);
    }
    let Some(base) = heading_form(alloc, class, field)? else {
        return Ok(None);
    };
    let sought = forms_for(alloc, class, field, tie, base)?;
    let keys = named(alloc, field, tie)?;
    Ok(Some(Wanted { sought, keys }))
}

// The forms by which a heading field is looked up, of which the base form is given.
fn forms_for(
    alloc: Global,
    class: Class,
    field: &Field,
    tie: &Tie,
    base: Form,
) -> Result<Sought, NoMemory>
    requires base { base ≡ base_form base.kind field.now }
    requires whole { tie.now.whole ≡ true → is_subdividable class (tag_of field.now) ≡ true }
    ensures { IfOk result (AsksFor class base.kind (kept_field field.now tie.now)) }
{
    if is_divided(class, field) {
        let part = full(alloc, field, base.kind, class)?;
        let whole = form(alloc, base.kind, &part)?;
        return Ok(one_or_both(tie.whole, whole, base));
    }
    Ok(Sought {
        form: base,
        other: None,
    })
}

/// Whether the field takes subdivisions, and has one.
pub(crate) fn is_divided(class: Class, field: &Field) -> bool
    ensures { result ≡ (is_subdividable class (tag_of field.now) && is_subdivided (subfields_of field.now)) }
{
    takes_subdivisions(field.tag(), class) && has_subdivision(field)
}

fn one_or_both(is_whole: bool, form: Form, base: Form) -> Sought
    ensures { result ≡ sought_by is_whole form base }
{
    if is_whole {
        Sought { form, other: None }
    } else {
        Sought {
            form,
            other: Some(base),
        }
    }
}

/// The keys that a field names, in a `$0` or as the one that it awaits.
pub(crate) fn named(alloc: Global, field: &Field, tie: &Tie) -> Result<Vec<Key>, NoMemory>
    ensures { IfOk result (λ keys. NamesKeys (kept_field field.now tie.now) keys.items) }
{
    let mut keys = named_in(alloc, field.subfields())?;
    note_awaited(&mut keys, alloc, tie)?;
    Ok(keys)
}

fn named_in(alloc: Global, subfields: &[Subfield]) -> Result<Vec<Key>, NoMemory>
    ensures { IfOk result (λ keys. (key : AnyKey) → is_valid_key key ≡ true
        → list_any (same_key key) keys.items ≡ list_any (is_naming key) subfields.now) }
{
    let mut keys = Vec::new(alloc);
    for subfield in subfields {
        note_named(&mut keys, alloc, subfield)?;
    }
    Ok(keys)
}

fn note_named(keys: &mut Vec<Key>, alloc: Global, subfield: &Subfield) -> Result<(), NoMemory>
    ensures { OnOk result (NotesProperKeys (λ key. is_naming key subfield.now) keys.old.items keys.new.items) }
{
    let Some(key) = named_key(alloc, subfield)? else {
        return Ok(());
    };
    keys.push(key)?;
    Ok(())
}

fn note_awaited(keys: &mut Vec<Key>, alloc: Global, tie: &Tie) -> Result<(), NoMemory>
    ensures { OnOk result (NotesKeys (λ key. option_map_or (same_key key) tie.now.awaits false) keys.old.items keys.new.items) }
{
    let Some(key) = &tie.awaits else {
        return Ok(());
    };
    keys.push(key.key().copy(alloc)?)?;
    Ok(())
}
