//! Open headings, with all that their lines show.
ghost use Rattle.std.specs.Prelude.{◌≡◌, IfOk};
ghost use Rattle.std.specs.Option.{option_copied};
ghost use Rattle.catalogue_rules.specs.State.{linkable_authorities};
ghost use Rattle.catalogue_rules.specs.Choice.{asks_base};
ghost use Rattle.numbered_store.specs.Kept.{kept_record};
ghost use Rattle.heading_worklist.specs.Found.{candidates_at, candidates_shown, open_at_field};
ghost use Rattle.heading_worklist.specs.Headings.{is_ambiguous};

use crate::forms::{HeadingForms, forms_of};
use catalogue_core::{Engine, Standing};
use heading_fields::{has_subdivision, takes_subdivisions};
use marc_types::{Class, Field, Key, Keys, NoMemory, Tie};
use numbered_store::{FoundField, StoredRecord};
use std::alloc::Global;
use std::marker::Model;

/// A heading field that isn't linked, in its record, with its forms and the authorities that it could be linked to.
#[derive(Drop)]
pub(crate) struct OpenField<'a> {
    pub(crate) class: Class,
    pub(crate) key: &'a Key,
    pub(crate) kept: &'a StoredRecord,
    pub(crate) number: u32,
    pub(crate) found: FoundField<'a>,
    pub(crate) forms: HeadingForms,
    pub(crate) candidates: Keys,
}

impl<'a> Model for OpenField<'a> {
    ghost use Rattle.std.specs.Prelude.{◌≡◌};
    ghost use Rattle.numbered_store.specs.Kept.{found_field, kept_record};
    ghost use Rattle.heading_worklist.specs.Found.{forms_as};
    ghost use Rattle.heading_worklist.specs.Headings.{OpenHeading};

    ghost Value = { OpenHeading };

    ghost view = { λ x. record {
      class = x.class;
      row = (x.key.now, kept_record x.kept.now);
      number = x.number;
      held = found_field x.found;
      kind = x.forms.kind;
      candidates = x.candidates;
    } };

    ghost invariant = { λ x. x.forms ≡ forms_as x.class (found_field x.found).field x.forms.kind };
}

/// The candidates of a field that stands so, where it is an open heading.
fn candidates_of(alloc: Global, standing: Standing) -> Option<Keys>
    ensures { result ≡ candidates_shown standing }
{
    match standing {
        Standing::Ambiguous(keys) => Some(keys),
        Standing::Unlinked => Some(Keys::from_vec(Vec::new(alloc))),
        Standing::Linked | Standing::NoHeading => None,
    }
}

/// The candidates of the field at a place of a kept record, where it is an open heading.
fn candidates_at(
    alloc: Global,
    engine: &Engine,
    class: Class,
    kept: &StoredRecord,
    place: u32,
) -> Result<Option<Keys>, NoMemory>
    ensures { IfOk result (λ keys. keys ≡ candidates_at engine.now.state class (kept_record kept.now) place) }
{
    match engine.standing_at(alloc, class, kept, place)? {
        Some(standing) => Ok(candidates_of(alloc, standing)),
        None => Ok(None),
    }
}

/// The open heading that the field at a place is, if it is one.
pub(crate) fn open_field_at<'a>(
    alloc: Global,
    engine: &Engine,
    class: Class,
    key: &'a Key,
    kept: &'a StoredRecord,
    place: u32,
) -> Result<Option<OpenField<'a>>, NoMemory>
    ensures { IfOk result (λ found. found
        ≡ open_at_field (linkable_authorities engine.now.state) class (key.now, kept_record kept.now) place) }
{
    let Some(candidates) = candidates_at(alloc, engine, class, kept, place)? else {
        return Ok(None);
    };
    let Some(found) = kept.found_at(alloc, place)? else {
        return Ok(None);
    };
    let Some(forms) = forms_of(alloc, class, found.parts().0)? else {
        return Ok(None);
    };
    Ok(Some(OpenField {
        class,
        key,
        kept,
        number: place,
        found,
        forms,
        candidates,
    }))
}

impl OpenField<'_> {
    pub(crate) fn field(&self) -> &Field
        ensures { result.now ≡ self.now.held.field }
    {
        self.found.parts().0
    }

    fn tie(&self) -> &Tie
        ensures { result.now ≡ self.now.held.tie }
    {
        self.found.parts().1
    }

    /// The key that it awaits.
    pub(crate) fn awaits(&self) -> Option<&Key>
        ensures { option_copied result ≡ self.now.held.tie.awaits }
    {
        match &self.tie().awaits {
            Some(awaited) => Some(awaited.key()),
            None => None,
        }
    }

    /// Whether there are authorities that it could be linked to.
    pub(crate) fn is_ambiguous(&self) -> bool
        ensures { result ≡ is_ambiguous self.now }
    {
        !self.candidates.is_empty()
    }

    /// Whether it is looked up by its base form.
    pub(crate) fn asks_base(&self) -> bool
        ensures { result ≡ asks_base self.now.class self.now.held }
    {
        let field = self.field();
        !self.tie().whole
            && (!takes_subdivisions(field.tag(), self.class) || has_subdivision(field))
    }
}
