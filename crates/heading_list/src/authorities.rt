//! The rows of authorities.
ghost use Rattle.std.specs.Prelude.{◌≡◌, [], ◌∷◌, map, Some, IfOk, OnOk, option_copied};
ghost use Rattle.std.specs.List.{flat_map};
ghost use Rattle.std.specs.Option.{option_map_or};
ghost use Rattle.catalogue_rules.specs.State.{fields_of};
ghost use Rattle.entry_record.specs.Authority.{heading_of, is_tracing_of, linkable_of};
ghost use Rattle.entry_record.specs.Headings.{is_tracing_tag};
ghost use Rattle.entry_record.specs.Prepared.{established_in};
ghost use Rattle.heading_list.specs.Collecting.{Takes};
ghost use Rattle.heading_list.specs.Rows.{rows_of_authority, rows_of_linkable, tracing_rows};
ghost use Rattle.numbered_store.specs.Kept.{kept_record, shown_row};

use crate::first_rows::FirstRows;
use crate::row::{ListRow, Role};
use entry_record::{Preparation, base_form, full_form};
use heading_fields::authority_kind;
use marc_types::{Class, Field, Form, Key, Kind, NoMemory, Record, RecordFault, TryCopy};
use numbered_store::{RowMap, StoredRecord};
use reading::read_record;
use std::alloc::Global;

/// A kept record, decoded.
#[tactic(auto, using(crate::proofs::Decoding::read_again, crate::proofs::Decoding::never_refused))]
fn record_of(alloc: Global, kept: &StoredRecord) -> Result<Record, NoMemory>
    ensures { IfOk result (λ rec. rec.fields ≡ fields_of (kept_record kept.now)) }
{
    kept.each_text_is_utf8();
    match read_record(alloc, kept.as_bytes()) {
        Ok(rec) => Ok(rec),
        Err(RecordFault::NoMemory) => Err(NoMemory),
        // what was written of a record is read as that record
        Err(RecordFault::Refused(_)) => unreachable!(),
    }
}

/// The heading of an authority record: its first 1XX.
fn heading(fields: &[Field]) -> Option<&Field>
    ensures { option_copied result ≡ heading_of fields.now }
{
    for field in fields {
        if field.tag().a == b'1' {
            return Some(field);
        }
    }
    None
}

/// Whether the tag of a field is that of a see from tracing of a kind.
fn is_tracing_tag(field: &Field, kind: Kind) -> bool
    ensures { result ≡ is_tracing_tag kind field.now }
{
    field.tag().a == b'4' && authority_kind(field.tag()) == Some(kind)
}

/// Whether a field is a see from tracing of a kind, under which an authority is found.
#[tactic(auto, using(crate::proofs::Tracings::untraced))]
fn is_tracing(alloc: Global, field: &Field, kind: Kind) -> Result<bool, NoMemory>
    ensures { IfOk result (λ is. is ≡ is_tracing_of kind field.now) }
{
    if !is_tracing_tag(field, kind) {
        return Ok(false);
    }
    let base = base_form(alloc, field, kind)?;
    Ok(!base.items.is_empty())
}

/// Puts the row of a field where it is such a tracing.
#[tactic(auto, using(crate::proofs::Tracings::no_tracing, crate::proofs::Tracings::one_tracing))]
fn put_tracing(
    alloc: Global,
    first: &mut FirstRows,
    key: &Key,
    kind: Kind,
    field: &Field,
) -> Result<(), NoMemory>
    ensures { OnOk result (Takes first.old first.new (tracing_rows key.now kind (field.now ∷ []))) }
{
    if !is_tracing(alloc, field, kind)? {
        return Ok(());
    }
    let form = full_form(alloc, field, kind, Class::Authority)?;
    first.put(ListRow::of(alloc, form, Role::SeeFrom, key, field)?)
}

/// Puts the row of each field that is such a tracing.
fn put_tracings(
    alloc: Global,
    first: &mut FirstRows,
    key: &Key,
    kind: Kind,
    fields: &[Field],
) -> Result<(), NoMemory>
    ensures { OnOk result (Takes first.old first.new (tracing_rows key.now kind fields.now)) }
{
    for field in fields {
        put_tracing(alloc, first, key, kind, field)?;
    }
    Ok(())
}

/// Puts the rows of an authority with these fields, to which fields can be linked by this form.
fn put_linkable(
    alloc: Global,
    first: &mut FirstRows,
    key: &Key,
    fields: &[Field],
    established: &Form,
) -> Result<(), NoMemory>
    requires { Some established.now ≡ established_in (linkable_of key.now fields.now) }
    ensures { OnOk result (Takes first.old first.new (option_map_or (rows_of_linkable fields.now) (linkable_of key.now fields.now) [])) }
{
    let Some(heading) = heading(fields) else {
        // its form is that of a heading
        unreachable!()
    };
    let form = established.copy(alloc)?;
    first.put(ListRow::of(alloc, form, Role::Established, key, heading)?)?;
    put_tracings(alloc, first, key, established.kind, fields)
}

/// Puts the rows of an authority that is kept under its key.
fn put_authority(
    alloc: Global,
    first: &mut FirstRows,
    key: &Key,
    kept: &StoredRecord,
) -> Result<(), NoMemory>
    ensures { OnOk result (Takes first.old first.new (rows_of_authority (key.now, kept_record kept.now))) }
{
    let rec = record_of(alloc, kept)?;
    let (rec, standing) = Preparation::of_record(alloc, Class::Authority, key.copy(alloc)?, rec)?;
    match standing.established() {
        Some(form) => put_linkable(alloc, first, key, rec.fields.as_slice(), form),
        None => Ok(()),
    }
}

/// Puts the rows of all authorities.
pub(crate) fn put_authorities(
    alloc: Global,
    first: &mut FirstRows,
    authorities: &RowMap<'_>,
) -> Result<(), NoMemory>
    ensures { OnOk result (Takes first.old first.new (flat_map rows_of_authority (map shown_row authorities.now.entries))) }
{
    for (key, kept) in authorities {
        put_authority(alloc, first, key, kept)?;
    }
    Ok(())
}
