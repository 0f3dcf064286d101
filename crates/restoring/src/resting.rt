//! Whether a field of a kept record rests among the authorities.
ghost use Rattle.std.specs.Prelude.{◌≡◌, ◌≢◌, ◌↔◌, [], true, false, IfOk, IfSome, IsTrue, None, Some};
ghost use Rattle.std.specs.List.{list_any};
ghost use Rattle.marc_types.specs.Fields.{tag_of};
ghost use Rattle.heading_fields.specs.Parts.{base_part, is_part};
ghost use Rattle.heading_fields.specs.Tables.{kind_of};
ghost use Rattle.entry_record.specs.Authority.{is_kind};
ghost use Rattle.catalogue_rules.specs.State.{kept_field, linkable_authorities};
ghost use Rattle.catalogue_rules.specs.Store.{field_at};
ghost use Rattle.kept_rows.specs.Standing.{DoesRest};
ghost use Rattle.numbered_store.specs.Kept.{found_field, kept_record};
ghost use Rattle.catalogue_tables.specs.Seam.{HasKey};
ghost use Rattle.linking_laws.specs.Middle.{AreAuthoritiesInOrder};
ghost use Rattle.linked_store.specs.Linked.{field_of};
ghost use Rattle.commit_stages.specs.Headings.{own_heading};
ghost use Rattle.restoring.specs.Resting.{CanHave, RestsUnder, StandsAt, TellsRest, is_plain, is_whole_rightly, plain_rests, rests_by, tie_lent};

use crate::authority::linked_heading;
use catalogue_tables::Chosen;
use commit_stages::OwnHeading;
use field_settling::{Heading, link_to};
use heading_fields::{belongs, has_subdivision, heading_kind, part_region, takes_subdivisions};
use linked_store::{ReadableStore, can_be_heading};
use marc_types::{Class, Field, Key, Kind, NoMemory, Subfield, Tag, Tie};
use numbered_store::{FoundField, StoredRecord};
use numbering::Seat;
use std::alloc::Global;

/// Whether the field at a place of a record rests, if there is one. It is decoded only where it is linked or its tag can be that of a
/// heading.
pub(crate) fn place_rests(
    store: &ReadableStore,
    alloc: Global,
    seat: Seat,
    kept: &StoredRecord,
) -> Result<bool, NoMemory>
    requires ordered { AreAuthoritiesInOrder store.now.state }
    requires known { HasKey store.now.keys seat }
    requires stands { field_of seat store.now ≡ field_at seat.field (kept_record kept.now) }
    ensures { IfOk result (λ told. IsTrue told
        ↔ IfSome (field_at seat.field (kept_record kept.now)) (DoesRest (linkable_authorities store.now.state) seat.class)) }
{
    let Some(tag) = kept.tag_at(seat.field) else {
        return Ok(true);
    };
    let tie = kept.tie_at(seat.field);
    if is_plain(seat.class, &tag, tie) {
        return Ok(plain_rests(seat.class, &tag, tie));
    }
    match kept.found_at(alloc, seat.field)? {
        Some(found) => found_rests(store, alloc, seat, &found),
        None => Ok(true),
    }
}

// Whether a field is neither linked nor has the tag of a heading.
fn is_plain(class: Class, tag: &Tag, tie: Option<&Tie>) -> bool
    ensures { result ≡ is_plain class tag.now (tie_lent tie.entry) }
{
    let linked = match tie {
        Some(tie) => tie.key.is_some(),
        None => false,
    };
    !linked && !can_be_heading(tag, class)
}

// Such a field rests where it awaits nothing, and takes subdivisions where it is whole.
fn plain_rests(class: Class, tag: &Tag, tie: Option<&Tie>) -> bool
    ensures { result ≡ plain_rests class tag.now (tie_lent tie.entry) }
{
    match tie {
        Some(tie) => tie.awaits.is_none() && is_whole_rightly(class, tag, tie),
        None => true,
    }
}

// Whether a field that was decoded at a seat rests.
fn found_rests(
    store: &ReadableStore,
    alloc: Global,
    seat: Seat,
    found: &FoundField<'_>,
) -> Result<bool, NoMemory>
    requires { StandsAt (found_field found.now) seat store.now }
    ensures { IfOk result (TellsRest seat.class (found_field found.now) store.now.state) }
{
    let (field, tie) = found.parts();
    field_rests(store, alloc, seat, field, tie)
}

// Whether the field that stands at a seat rests.
fn field_rests(
    store: &ReadableStore,
    alloc: Global,
    seat: Seat,
    field: &Field,
    tie: &Tie,
) -> Result<bool, NoMemory>
    requires { StandsAt (kept_field field.now tie.now) seat store.now }
    ensures { IfOk result (TellsRest seat.class (kept_field field.now tie.now) store.now.state) }
{
    if !is_whole_rightly(seat.class, field.tag(), tie) {
        return Ok(false);
    }
    match &tie.key {
        Some(key) => link_rests(store, alloc, seat.class, field, tie, key.key()),
        None => choice_rests(store, alloc, seat, field, tie),
    }
}

fn is_whole_rightly(class: Class, tag: &Tag, tie: &Tie) -> bool
    ensures { result ≡ is_whole_rightly class tag.now tie.now }
{
    !tie.whole || takes_subdivisions(tag, class)
}

// Whether a linked field rests, which takes subdivisions where it is whole.
fn link_rests(
    store: &ReadableStore,
    alloc: Global,
    class: Class,
    field: &Field,
    tie: &Tie,
    key: &Key,
) -> Result<bool, NoMemory>
    requires ordered { AreAuthoritiesInOrder store.now.state }
    requires linked { tie.now.key ≡ Some key.now }
    requires whole { is_whole_rightly class (tag_of field.now) tie.now ≡ true }
    ensures { IfOk result (TellsRest class (kept_field field.now tie.now) store.now.state) }
{
    match linked_heading(store, alloc, key)? {
        Some(heading) => rests_under(alloc, class, field, tie, key, &heading),
        None => Ok(false),
    }
}

// Whether an unlinked field rests, which takes subdivisions where it is whole.
fn choice_rests(
    store: &ReadableStore,
    alloc: Global,
    seat: Seat,
    field: &Field,
    tie: &Tie,
) -> Result<bool, NoMemory>
    requires stands { StandsAt (kept_field field.now tie.now) seat store.now }
    requires unlinked { tie.now.key ≡ None }
    requires whole { is_whole_rightly seat.class (tag_of field.now) tie.now ≡ true }
    ensures { IfOk result (TellsRest seat.class (kept_field field.now tie.now) store.now.state) }
{
    let chosen = store.as_linked().choose_at(alloc, seat, field, tie)?;
    Ok(rests_by(chosen, tie))
}

// A heading rests where its choice is no link, and another field where it awaits nothing.
fn rests_by(chosen: Option<Chosen>, tie: &Tie) -> bool
    ensures { result ≡ rests_by chosen tie.now }
{
    match chosen {
        Some(Chosen::Link { .. }) => false,
        Some(Chosen::Ambiguous | Chosen::Unlinked) => true,
        None => tie.awaits.is_none(),
    }
}

// Whether a field that is linked to the heading anew is as it stands.
fn rests_under(
    alloc: Global,
    class: Class,
    field: &Field,
    tie: &Tie,
    key: &Key,
    heading: &OwnHeading,
) -> Result<bool, NoMemory>
    ensures { IfOk result (λ told. IsTrue told
        ↔ RestsUnder class (kept_field field.now tie.now) key.now (own_heading heading.now)) }
{
    if !can_have(class, field, tie, heading) {
        return Ok(false);
    }
    let heading = Heading {
        kind: heading.kind,
        field: &heading.field,
    };
    let made = link_to(alloc, key, heading, class, field, tie.whole)?;
    Ok(made.is(field, tie))
}

// Whether the field can have the heading. No form is made for it: one that is as it would be written from a heading has that one's.
fn can_have(class: Class, field: &Field, tie: &Tie, heading: &OwnHeading) -> bool
    ensures { IsTrue result ↔ CanHave class (kept_field field.now tie.now) (own_heading heading.now) }
{
    is_of_kind(class, field, heading.kind)
        && has_base_part(field, heading.kind)
        && (tie.whole || !has_subdivision(&heading.field))
}

fn is_of_kind(class: Class, field: &Field, kind: Kind) -> bool
    ensures { result ≡ is_kind kind (kind_of class field.now) }
{
    match heading_kind(field, class) {
        Some(own) => kind == own,
        None => false,
    }
}

fn has_base_part(field: &Field, kind: Kind) -> bool
    ensures { IsTrue result ↔ (base_part kind field.now ≢ []) }
{
    is_any_of(part_region(field.subfields(), false), kind)
}

fn is_any_of(region: &[Subfield], kind: Kind) -> bool
    ensures { result ≡ list_any (is_part false kind) region.now }
{
    region.iter().any(|subfield| belongs(subfield, kind, false))
}
