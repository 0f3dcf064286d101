//! The heading of a kept authority.
ghost use Rattle.std.specs.Prelude.{◌≡◌, List, Some, option_map};
ghost use Rattle.std.specs.Option.{option_copied};
ghost use Rattle.marc_types.specs.declared.field.Field.{Field as AnyField};
ghost use Rattle.marc_types.specs.declared.key.Key.{Key as AnyKey};
ghost use Rattle.entry_record.specs.Authority.{Linkable, heading_of, linkable_of};
ghost use Rattle.field_settling.specs.Held.{governing_of, heading_as, with_kind};

use heading_fields::authority_kind;
use marc_types::{Field, Kind, Record};

/// The heading of an authority, and its kind.
#[derive(Clone, Copy, Debug)]
pub struct Heading<'a> {
    pub kind: Kind,
    pub field: &'a Field,
}

// The first 1XX of some fields.
fn first_heading(fields: &[Field]) -> Option<&Field>
    ensures { option_copied result ≡ heading_of fields.now }
{
    fields.iter().find(|field| field.tag().a == b'1')
}

/// The first 1XX of a record with the kind that its tag says: of an authority that fields are linked to it is the heading.
pub fn governing(rec: &Record) -> Option<Heading<'_>>
    ensures { option_map heading_as result ≡ governing_of rec.now.fields }
{
    match first_heading(rec.fields.as_slice()) {
        Some(field) => of_kind(field),
        None => None,
    }
}

// The field with the kind that its tag says.
fn of_kind(field: &Field) -> Option<Heading<'_>>
    ensures { option_map heading_as result ≡ with_kind field.now }
{
    match authority_kind(field.tag()) {
        Some(kind) => Some(Heading { kind, field }),
        None => None,
    }
}

/// The heading and the kind of an authority that fields are linked to are those of its record.
#[tactic(auto, using(crate::proofs::Headings::heading_found))]
pub fn a_linkable_authority_governs()
    ensures { (key : AnyKey) (fields : List AnyField) (c : Linkable) → linkable_of key fields ≡ Some c → governing_of fields ≡ Some (c.kind, c.heading) }
{}
