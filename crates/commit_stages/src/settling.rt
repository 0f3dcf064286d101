//! The choice of an unlinked field by the tables, and the field that it makes: a link is written from its authority's record.
ghost use Rattle.std.specs.Prelude.{◌≡◌, ◌+◌, ◌≤◌, true, None, Some, IfOk, IfSome, option_map};
ghost use Rattle.marc_types.specs.Valid.{is_field};
ghost use Rattle.marc_types.specs.declared.key.Class.TheVariants.{Authority as AnAuthority};
ghost use Rattle.catalogue_rules.specs.State.{linkable_authorities};
ghost use Rattle.catalogue_tables.specs.Choosing.{chosen_for, heading_choice};
ghost use Rattle.catalogue_tables.specs.Seam.{HasKey};
ghost use Rattle.field_settling.specs.Held.{held_as};
ghost use Rattle.linking_laws.specs.Middle.{AreAuthoritiesInOrder};
ghost use Rattle.linking_laws.specs.Visits.{link_visit};
ghost use Rattle.linked_store.specs.Linked.{IsNumber, field_of};
ghost use Rattle.commit_stages.specs.Choosing.{heading_under, linked_under};
ghost use Rattle.commit_stages.specs.Fields.{field_as};
ghost use Rattle.commit_stages.specs.Settled.{IsChoiceSettledTo};
ghost use Rattle.commit_stages.specs.Standing.{stands_at};

use crate::headings::visit_heading;
use crate::settled::{Settled, Stands};
use crate::visiting::FieldAt;
use catalogue_rules::Steps;
use catalogue_tables::{Chosen, heading_form};
use field_settling::{Held, link_to};
use linked_store::LinkedStore;
use marc_types::{Class, Field, NoMemory};
use numbering::Seat;
use std::alloc::Global;
use std::sync::ledger::Ledger;

/// What the choice of the unlinked field that stands at a seat makes of it, where that is another field. Only a link makes a visit, to
/// the record of its authority.
pub(crate) fn settle_unlinked<L: Ledger>(
    store: &LinkedStore,
    alloc: Global,
    seat: Seat,
    at: FieldAt<'_>,
    steps: &mut Steps<L>,
) -> Result<Option<Held>, NoMemory>
    requires ordered { AreAuthoritiesInOrder store.now.state }
    requires known { HasKey store.now.keys seat }
    requires stands { field_of seat store.now ≡ Some (field_as at) }
    requires unlinked { (field_as at).tie.key ≡ None }
    ensures settled { IfOk result (IsChoiceSettledTo (linkable_authorities store.now.state) seat.class (field_as at.entry)) }
    ensures visits { steps.new ≤ steps.old + link_visit (linkable_authorities store.now.state) seat.class (field_as at.entry) }
{
    let settled = settle_with_standing(store, alloc, seat, at, steps)?;
    Ok(settled.made)
}

/// The same, and how the field stands then.
pub(crate) fn settle_with_standing<L: Ledger>(
    store: &LinkedStore,
    alloc: Global,
    seat: Seat,
    at: FieldAt<'_>,
    steps: &mut Steps<L>,
) -> Result<Settled, NoMemory>
    requires ordered { AreAuthoritiesInOrder store.now.state }
    requires known { HasKey store.now.keys seat }
    requires stands { field_of seat store.now ≡ Some (field_as at) }
    requires unlinked { (field_as at).tie.key ≡ None }
    ensures settled { IfOk result (λ settled. IsChoiceSettledTo (linkable_authorities store.now.state) seat.class (field_as at.entry) settled.made) }
    ensures stands { IfOk result (λ settled. settled.stands ≡ stands_at store.now seat.class at.entry) }
    ensures visits { steps.new ≤ steps.old + link_visit (linkable_authorities store.now.state) seat.class (field_as at.entry) }
{
    let chosen = store.choose_at(alloc, seat, at.field, at.tie)?;
    settle_chosen(store, alloc, seat.class, at, chosen, steps)
}

/// What the choice of an unlinked field that stands nowhere yet makes of it, where that is another field: by its forms, which are made
/// for it.
pub(crate) fn settle_made<L: Ledger>(
    store: &LinkedStore,
    alloc: Global,
    class: Class,
    at: FieldAt<'_>,
    steps: &mut Steps<L>,
) -> Result<Option<Held>, NoMemory>
    requires { AreAuthoritiesInOrder store.now.state }
    ensures settled { IfOk result (IsChoiceSettledTo (linkable_authorities store.now.state) class (field_as at.entry)) }
    ensures visits { steps.new ≤ steps.old + link_visit (linkable_authorities store.now.state) class (field_as at.entry) }
{
    let base = heading_form(alloc, class, at.field)?;
    let chosen = store.choose(alloc, class, at.field, at.tie, base.as_ref())?;
    let settled = settle_chosen(store, alloc, class, at, chosen, steps)?;
    Ok(settled.made)
}

// What its choice makes of an unlinked field, and how it stands then.
fn settle_chosen<L: Ledger>(
    store: &LinkedStore,
    alloc: Global,
    class: Class,
    at: FieldAt<'_>,
    chosen: Option<Chosen>,
    steps: &mut Steps<L>,
) -> Result<Settled, NoMemory>
    requires ordered { AreAuthoritiesInOrder store.now.state }
    requires chosen { chosen ≡ option_map (chosen_for store.now.keys.authorities) (heading_choice (linkable_authorities store.now.state) class (field_as at)) }
    ensures settled { IfOk result (λ settled. IsChoiceSettledTo (linkable_authorities store.now.state) class (field_as at.entry) settled.made) }
    ensures stands { (field_as at.entry).tie.key ≡ None → IfOk result (λ settled. settled.stands ≡ stands_at store.now class at.entry) }
    ensures visits { steps.new ≤ steps.old + link_visit (linkable_authorities store.now.state) class (field_as at.entry) }
{
    store.each_authority_has_a_number();
    let Some(choice) = chosen else {
        return Ok(stays(Stands::NoHeading));
    };
    match choice {
        Chosen::Link { number, whole } => {
            let made = link_chosen(store, alloc, number, whole, class, at.field, steps)?;
            let stands = Stands::Linked;
            Ok(Settled { made, stands })
        }
        Chosen::Ambiguous => Ok(stays(Stands::Ambiguous)),
        Chosen::Unlinked => Ok(stays(Stands::Unlinked)),
    }
}

// The field is no other than it was.
fn stays(stands: Stands) -> Settled
    ensures made { result.made ≡ None }
    ensures stands { result.stands ≡ stands }
{
    Settled { made: None, stands }
}

// The field linked to the authority under the key that has the number.
fn link_chosen<L: Ledger>(
    store: &LinkedStore,
    alloc: Global,
    number: u32,
    whole: bool,
    class: Class,
    field: &Field,
    steps: &mut Steps<L>,
) -> Result<Option<Held>, NoMemory>
    requires { IsNumber AnAuthority number store.now.keys }
    ensures linked { IfOk result (λ made. option_map held_as made ≡ linked_under class field.now whole number store.now) }
    ensures proper { IfSome (heading_under number store.now) (λ heading. is_field heading.1 ≡ true) }
    ensures step { steps.new ≡ steps.old + 1 }
{
    match visit_heading(store, alloc, number, steps)? {
        Some(own) => {
            let key = store.key(Class::Authority, number);
            let heading = own.lent();
            let held = link_to(alloc, key, heading, class, field, whole)?;
            Ok(Some(held))
        }
        None => Ok(None),
    }
}
