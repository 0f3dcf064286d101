//! The fields of the committed record are settled in turn.
ghost use Rattle.std.specs.Prelude.{◌≡◌, ◌+◌, ◌≤◌, true, length, IfOk, IfSome, OnOk};
ghost use Rattle.marc_types.specs.Valid.{is_record};
ghost use Rattle.catalogue_rules.specs.Settle.{settle_field};
ghost use Rattle.catalogue_rules.specs.State.{fields_of, linkable_authorities};
ghost use Rattle.linking_laws.specs.Middle.{IsMiddle};
ghost use Rattle.linking_laws.specs.Visits.{own_visits};
ghost use Rattle.linked_store.specs.Linked.{IsAhead, IsNumber, key_of, record_at};
ghost use Rattle.linked_store.specs.Placing.{own_record};
ghost use Rattle.commit_stages.specs.Turns.{IsMadeOf, IsToDo, IsTurned, visits_at};
ghost use Rattle.commit_stages.specs.Standing.{StandsSo};
ghost use Rattle.commit_stages.specs.Counted.{AreCountsOf};
ghost use Rattle.commit_stages.specs.OwnFields.{AreAsCame, IsOwnSettled, fields_in, own_visits_in};
ghost use Rattle.commit_stages.specs.Unlinked.{has_no_link};

use crate::counts::{HeadingCounts, counted};
use crate::exchanging::exchange_made;
use crate::settled::{Settled, Stands};
use crate::settling::settle_with_standing;
use crate::visiting::{heading_found, lent};
use catalogue_rules::Steps;
use linked_store::{LinkedStore, OwnRecord};
use marc_types::{Class, NoMemory};
use numbering::Seat;
use std::alloc::Global;
use std::sync::ledger::Ledger;

/// The fields of the record under the key that has the number are settled, and counted by how they stand then. They stand there as
/// they came, so that only a link makes a visit, to the record of its authority.
pub(crate) fn settle_own<L: Ledger>(
    store: &mut LinkedStore,
    alloc: Global,
    class: Class,
    number: u32,
    own: OwnRecord,
    steps: &mut Steps<L>,
) -> Result<HeadingCounts, NoMemory>
    requires number { IsNumber class number store.old.keys }
    requires own { own ≡ own_record class number }
    requires came { AreAsCame class number store.old }
    requires middle { IsMiddle store.old.state }
    ensures ok { OnOk result (IsOwnSettled (linkable_authorities store.old.state) class (key_of class number store.old.keys) store.old store.new) }
    ensures counts { IfOk result (AreCountsOf (linkable_authorities store.old.state) class (fields_in class number store.old)) }
    ensures ahead { IsAhead store.old store.new }
    ensures visits { steps.new ≤ steps.old + own_visits_in class number store.old }
{
    is_proper(store, class, number);
    let places = places_in(store, class, number, own);
    let mut counts = HeadingCounts {
        linked: 0,
        ambiguous: 0,
        unlinked: 0,
    };
    for place in 0..places {
        let seat = Seat {
            class,
            number,
            field: place,
        };
        let stands = settle_own_at(store, alloc, own, seat, steps)?;
        counts = counted(counts, stands);
    }
    Ok(counts)
}

// How many fields the record under the key that has the number has.
fn places_in(store: &LinkedStore, class: Class, number: u32, own: OwnRecord) -> u32
    requires number { IsNumber class number store.now.keys }
    requires own { own ≡ own_record class number }
    ensures { result ≡ length (fields_in class number store.now) }
{
    match store.look_at_own(own) {
        Some(kept) => kept.field_count(),
        None => 0,
    }
}

// One turn.
fn settle_own_at<L: Ledger>(
    store: &mut LinkedStore,
    alloc: Global,
    own: OwnRecord,
    seat: Seat,
    steps: &mut Steps<L>,
) -> Result<Stands, NoMemory>
    requires to_do { IsToDo has_no_link seat store.old }
    requires own { own ≡ own_record seat.class seat.number }
    requires middle { IsMiddle store.old.state }
    ensures ok { OnOk result (IsTurned (settle_field (linkable_authorities store.old.state)) seat store.old store.new) }
    ensures stands { IfOk result (StandsSo seat store.old) }
    ensures ahead { IsAhead store.old store.new }
    ensures visits { steps.new ≤ steps.old + visits_at (own_visits (linkable_authorities store.old.state)) store.old seat }
{
    let settled = settled_own(store, alloc, own, seat, steps)?;
    exchange_made(store, alloc, seat, settled.made)?;
    Ok(settled.stands)
}

// What settling makes of the unlinked field at the seat. Its record is looked at, and not visited.
fn settled_own<L: Ledger>(
    store: &LinkedStore,
    alloc: Global,
    own: OwnRecord,
    seat: Seat,
    steps: &mut Steps<L>,
) -> Result<Settled, NoMemory>
    requires to_do { IsToDo has_no_link seat store.now }
    requires own { own ≡ own_record seat.class seat.number }
    requires middle { IsMiddle store.now.state }
    ensures made { IfOk result (λ settled. IsMadeOf (settle_field (linkable_authorities store.now.state)) seat store.now settled.made) }
    ensures stands { IfOk result (λ settled. StandsSo seat store.now settled.stands) }
    ensures visits { steps.new ≤ steps.old + visits_at (own_visits (linkable_authorities store.now.state)) store.now seat }
{
    is_proper(store, seat.class, seat.number);
    match heading_found(store, alloc, own, seat)? {
        Some(found) => {
            let at = lent(&found);
            settle_with_standing(store, alloc, seat, at, steps)
        }
        None => Ok(Settled {
            made: None,
            stands: Stands::NoHeading,
        }),
    }
}

// A record that is kept is a MARC record.
fn is_proper(store: &LinkedStore, class: Class, number: u32)
    requires { IsNumber class number store.now.keys }
    ensures { IfSome (record_at class number store.now) (λ r. is_record r.leader (fields_of r) ≡ true) }
{
    store.each_record_is_proper();
}
