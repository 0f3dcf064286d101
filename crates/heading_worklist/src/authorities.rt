//! The headings of authority records.
ghost use Rattle.std.specs.Prelude.{◌≡◌, option_map, option_and_then, IfOk};
ghost use Rattle.numbered_store.specs.Kept.{kept_record};
ghost use Rattle.heading_worklist.specs.Authorities.{form_of_heading, heading_as, heading_in, heading_under};

use crate::names::name_field;
use catalogue_core::Engine;
use entry_record::full_form;
use heading_fields::authority_kind;
use marc_types::{Class, Field, Form, Key, Kind, NoMemory};
use numbered_store::StoredRecord;
use std::alloc::Global;

/// A heading of an authority, with its kind.
#[derive(Drop)]
pub(crate) struct AuthorityHeading {
    pub(crate) kind: Kind,
    pub(crate) field: Field,
}

/// The heading that a 1XX is, where its tag is of a kind.
fn heading_as(field: Field) -> Option<AuthorityHeading>
    ensures { result ≡ heading_as field }
{
    match authority_kind(field.tag()) {
        Some(kind) => Some(AuthorityHeading { kind, field }),
        None => None,
    }
}

/// The heading of an authority record.
pub(crate) fn heading_in(
    alloc: Global,
    kept: &StoredRecord,
) -> Result<Option<AuthorityHeading>, NoMemory>
    ensures { IfOk result (λ heading. heading ≡ heading_in (kept_record kept.now)) }
{
    match name_field(alloc, Class::Authority, kept)? {
        Some(field) => Ok(heading_as(field)),
        None => Ok(None),
    }
}

/// The heading of the authority record under a key.
pub(crate) fn heading_under(
    alloc: Global,
    engine: &Engine,
    key: &Key,
) -> Result<Option<AuthorityHeading>, NoMemory>
    ensures { IfOk result (λ heading. heading ≡ heading_under engine.now.state key.now) }
{
    match engine.look(Class::Authority, key) {
        Some(kept) => heading_in(alloc, kept),
        None => Ok(None),
    }
}

impl AuthorityHeading {
    /// The form by which its authority is found.
    pub(crate) fn form(&self, alloc: Global) -> Result<Form, NoMemory>
        ensures { IfOk result (λ form. form ≡ form_of_heading self.now) }
    {
        full_form(alloc, &self.field, self.kind, Class::Authority)
    }
}
