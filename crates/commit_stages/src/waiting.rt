//! One turn: the unlinked field that stands at a seat is settled.
ghost use Rattle.std.specs.Prelude.{◌≡◌, ◌+◌, ◌≤◌, IfOk, OnOk};
ghost use Rattle.catalogue_rules.specs.Settle.{settle_field};
ghost use Rattle.catalogue_rules.specs.State.{linkable_authorities};
ghost use Rattle.linking_laws.specs.Middle.{IsMiddle};
ghost use Rattle.linked_store.specs.Linked.{IsAhead};
ghost use Rattle.commit_stages.specs.Noted.{noted_with};
ghost use Rattle.commit_stages.specs.Turns.{IsMadeOf, IsToDo, IsTurned, visits_at};
ghost use Rattle.commit_stages.specs.Unlinked.{has_no_link, turn_visits};

use crate::exchanging::exchange_made;
use crate::noting::note_change;
use crate::settling::settle_unlinked;
use crate::visiting::{lent, visit_field};
use catalogue_rules::Steps;
use field_settling::Held;
use linked_store::LinkedStore;
use marc_types::NoMemory;
use numbering::{Numbering, Seat};
use std::alloc::Global;
use std::sync::ledger::Ledger;

/// Settles the unlinked field at the seat, which is noted where the field changes.
pub(crate) fn settle_at<L: Ledger>(
    store: &mut LinkedStore,
    alloc: Global,
    seat: Seat,
    noted: &mut Numbering<Seat>,
    steps: &mut Steps<L>,
) -> Result<(), NoMemory>
    requires to_do { IsToDo has_no_link seat store.old }
    requires middle { IsMiddle store.old.state }
    ensures ok { OnOk result (IsTurned (settle_field (linkable_authorities store.old.state)) seat store.old store.new) }
    ensures noted { OnOk result (noted.new ≡ noted_with (settle_field (linkable_authorities store.old.state)) store.old seat noted.old) }
    ensures ahead { IsAhead store.old store.new }
    ensures visits { steps.new ≤ steps.old + visits_at (turn_visits (linkable_authorities store.old.state)) store.old seat }
{
    let made = settled(store, alloc, seat, noted, steps)?;
    exchange_made(store, alloc, seat, made)
}

// What settling makes of the unlinked field at the seat, which is noted where that is another one. Its record is visited for it.
fn settled<L: Ledger>(
    store: &LinkedStore,
    alloc: Global,
    seat: Seat,
    noted: &mut Numbering<Seat>,
    steps: &mut Steps<L>,
) -> Result<Option<Held>, NoMemory>
    requires to_do { IsToDo has_no_link seat store.now }
    requires middle { IsMiddle store.now.state }
    ensures made { IfOk result (IsMadeOf (settle_field (linkable_authorities store.now.state)) seat store.now) }
    ensures noted { OnOk result (noted.new ≡ noted_with (settle_field (linkable_authorities store.now.state)) store.now seat noted.old) }
    ensures visits { steps.new ≤ steps.old + visits_at (turn_visits (linkable_authorities store.now.state)) store.now seat }
{
    match visit_field(store, alloc, seat, steps)? {
        Some(found) => {
            let at = lent(&found);
            let made = settle_unlinked(store, alloc, seat, at, steps)?;
            note_change(alloc, seat, at, &made, noted)?;
            Ok(made)
        }
        None => Ok(None),
    }
}
