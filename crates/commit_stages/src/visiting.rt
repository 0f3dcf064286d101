//! The field that stands at a seat, decoded from the record in which it stands.
ghost use Rattle.std.specs.Prelude.{◌≡◌, ◌+◌, false, IfOk, option_map};
ghost use Rattle.std.specs.Option.{option_map_or};
ghost use Rattle.marc_types.specs.Fields.{tag_of};
ghost use Rattle.catalogue_rules.specs.Store.{field_at};
ghost use Rattle.catalogue_tables.specs.Seam.{HasKey};
ghost use Rattle.numbered_store.specs.Kept.{found_field, kept_record};
ghost use Rattle.linked_store.specs.Holding.{can_be_heading};
ghost use Rattle.linked_store.specs.Linked.{field_of};
ghost use Rattle.linked_store.specs.Placing.{own_record};
ghost use Rattle.commit_stages.specs.Fields.{FindsHeading, IsProperAt, field_as};

use catalogue_rules::Steps;
use linked_store::{LinkedStore, OwnRecord, can_be_heading};
use marc_types::{Class, Field, NoMemory, Tie};
use numbered_store::{FoundField, StoredRecord};
use numbering::Seat;
use std::alloc::Global;
use std::sync::ledger::Ledger;

/// A field, and its tie.
#[derive(Clone, Copy, Debug)]
pub(crate) struct FieldAt<'a> {
    pub(crate) field: &'a Field,
    pub(crate) tie: &'a Tie,
}

/// A field that was found, lent.
pub(crate) fn lent<'a>(found: &'a FoundField<'_>) -> FieldAt<'a>
    ensures { field_as result ≡ found_field found.now }
{
    let (field, tie) = found.parts();
    FieldAt { field, tie }
}

/// The field that stands at a seat. Its record is visited for it, also where memory ends.
pub(crate) fn visit_field<'a, L: Ledger>(
    store: &'a LinkedStore,
    alloc: Global,
    seat: Seat,
    steps: &mut Steps<L>,
) -> Result<Option<FoundField<'a>>, NoMemory>
    requires { HasKey store.now.keys seat }
    ensures field { IfOk result (λ found. option_map found_field found ≡ field_of seat store.now) }
    ensures proper { IsProperAt seat store.now }
    ensures step { steps.new ≡ steps.old + 1 }
{
    match store.visit(seat.class, seat.number, steps) {
        Some(kept) => kept.found_at(alloc, seat.field),
        None => Ok(None),
    }
}

/// The field that stands at a seat of the commit's own record, where its tag is one of a heading: no other one is decoded. It counts
/// no visit.
pub(crate) fn heading_found(
    store: &LinkedStore,
    alloc: Global,
    own: OwnRecord,
    seat: Seat,
) -> Result<Option<FoundField<'_>>, NoMemory>
    requires known { HasKey store.now.keys seat }
    requires own { own ≡ own_record seat.class seat.number }
    ensures { IfOk result (λ found. FindsHeading seat.class (field_of seat store.now) (option_map found_field found)) }
{
    match store.look_at_own(own) {
        Some(kept) => heading_in(alloc, seat.class, kept, seat.field),
        None => Ok(None),
    }
}

#[tactic(auto, using(crate::proofs::Finding::finds_it, crate::proofs::Finding::finds_plain))]
fn heading_in(
    alloc: Global,
    class: Class,
    kept: &StoredRecord,
    place: u32,
) -> Result<Option<FoundField<'_>>, NoMemory>
    ensures { IfOk result (λ found. FindsHeading class (field_at place (kept_record kept.now)) (option_map found_field found)) }
{
    if !has_heading_tag(class, kept, place) {
        return Ok(None);
    }
    kept.found_at(alloc, place)
}

#[tactic(auto, using(crate::proofs::Finding::tag_tells, crate::proofs::Finding::no_tag_tells))]
fn has_heading_tag(class: Class, kept: &StoredRecord, place: u32) -> bool
    ensures { result ≡ option_map_or (λ h. can_be_heading class (tag_of h.field)) (field_at place (kept_record kept.now)) false }
{
    match kept.tag_at(place) {
        Some(tag) => can_be_heading(&tag, class),
        None => false,
    }
}
