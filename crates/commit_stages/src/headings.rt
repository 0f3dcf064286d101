//! The heading of a kept authority, decoded from its record.
ghost use Rattle.std.specs.Prelude.{◌≡◌, ◌+◌, Some, true, length, IfOk, IfSome, MatchOption, option_map};
ghost use Rattle.marc_types.specs.Fields.{tag_of};
ghost use Rattle.marc_types.specs.Valid.{is_field};
ghost use Rattle.marc_types.specs.declared.key.Class.TheVariants.{Authority as AnAuthority};
ghost use Rattle.catalogue_rules.specs.State.{fields_of};
ghost use Rattle.catalogue_rules.specs.Store.{field_at};
ghost use Rattle.field_settling.specs.Held.{governing_of, heading_as};
ghost use Rattle.numbered_store.specs.Kept.{kept_record};
ghost use Rattle.linked_store.specs.Linked.{IsNumber};
ghost use Rattle.linked_store.specs.Placing.{own_record};
ghost use Rattle.commit_stages.specs.Choosing.{heading_under};
ghost use Rattle.commit_stages.specs.Headings.{HasNoHeadingBefore, IsFirstHeading, heading_at, is_heading_at, own_heading};

use crate::heading::OwnHeading;
use catalogue_rules::Steps;
use field_settling::Heading;
use heading_fields::authority_kind;
use linked_store::{LinkedStore, OwnRecord};
use marc_types::{Class, NoMemory, Tag};
use numbered_store::StoredRecord;
use std::alloc::Global;
use std::sync::ledger::Ledger;

impl OwnHeading {
    pub(crate) fn lent(&self) -> Heading<'_>
        ensures { heading_as result ≡ own_heading self.now }
    {
        Heading {
            kind: self.kind,
            field: &self.field,
        }
    }
}

/// The heading of the authority that the commit has put under the number. It counts no visit.
pub(crate) fn look_at_heading(
    store: &LinkedStore,
    alloc: Global,
    number: u32,
    own: OwnRecord,
) -> Result<Option<OwnHeading>, NoMemory>
    requires number { IsNumber AnAuthority number store.now.keys }
    requires own { own ≡ own_record AnAuthority number }
    ensures { IfOk result (λ heading. option_map own_heading heading ≡ heading_under number store.now) }
{
    match store.look_at_own(own) {
        Some(kept) => decoded_heading(alloc, kept),
        None => Ok(None),
    }
}

/// The heading of the authority under the key that has the number. Its record is visited for it, also where memory ends.
pub(crate) fn visit_heading<L: Ledger>(
    store: &LinkedStore,
    alloc: Global,
    number: u32,
    steps: &mut Steps<L>,
) -> Result<Option<OwnHeading>, NoMemory>
    requires { IsNumber AnAuthority number store.now.keys }
    ensures heading { IfOk result (λ heading. option_map own_heading heading ≡ heading_under number store.now) }
    ensures proper { IfSome (heading_under number store.now) (λ heading. is_field heading.1 ≡ true) }
    ensures step { steps.new ≡ steps.old + 1 }
{
    match store.visit(Class::Authority, number, steps) {
        Some(kept) => decoded_heading(alloc, kept),
        None => Ok(None),
    }
}

/// The first 1XX of a record, with the kind that its tag says. The tags alone are read on the way to it.
#[tactic(auto, using(crate::proofs::Headed::governing_first, crate::proofs::Headed::governing_none))]
pub fn decoded_heading(alloc: Global, kept: &StoredRecord) -> Result<Option<OwnHeading>, NoMemory>
    ensures { IfOk result (λ heading. option_map own_heading heading ≡ governing_of (fields_of (kept_record kept.now))) }
{
    match heading_place(kept) {
        Some(place) => heading_at(alloc, kept, place),
        None => Ok(None),
    }
}

// The place of the first 1XX.
fn heading_place(kept: &StoredRecord) -> Option<u32>
    ensures { MatchOption result
        (HasNoHeadingBefore (kept_record kept.now) (length (kept_record kept.now).fields))
        (IsFirstHeading (kept_record kept.now)) }
{
    let places = kept.field_count();
    for place in 0..places {
        if is_heading_at(kept, place) {
            return Some(place);
        }
    }
    None
}

#[tactic(auto, using(crate::proofs::Headed::tag_tells, crate::proofs::Headed::no_tag_tells))]
fn is_heading_at(kept: &StoredRecord, place: u32) -> bool
    ensures { result ≡ is_heading_at (kept_record kept.now) place }
{
    match kept.tag_at(place) {
        Some(tag) => tag.a == b'1',
        None => false,
    }
}

// The field at a place with the kind that its tag says, where it is one of the eight: only then it is decoded.
#[tactic(auto, using(crate::proofs::Headed::untagged_kind))]
fn heading_at(
    alloc: Global,
    kept: &StoredRecord,
    place: u32,
) -> Result<Option<OwnHeading>, NoMemory>
    ensures { IfOk result (λ heading. option_map own_heading heading ≡ heading_at (kept_record kept.now) place) }
{
    match kept.tag_at(place) {
        Some(tag) => heading_tagged(alloc, kept, place, &tag),
        None => Ok(None),
    }
}

#[tactic(auto, using(crate::proofs::Headed::unkind, crate::proofs::Headed::kind_found, crate::proofs::Headed::unfound))]
fn heading_tagged(
    alloc: Global,
    kept: &StoredRecord,
    place: u32,
    tag: &Tag,
) -> Result<Option<OwnHeading>, NoMemory>
    requires { Some tag.now ≡ option_map (λ h. tag_of h.field) (field_at place (kept_record kept.now)) }
    ensures { IfOk result (λ heading. option_map own_heading heading ≡ heading_at (kept_record kept.now) place) }
{
    let Some(kind) = authority_kind(tag) else {
        return Ok(None);
    };
    match kept.field_at(alloc, place)? {
        Some(field) => Ok(Some(OwnHeading { kind, field })),
        None => Ok(None),
    }
}
