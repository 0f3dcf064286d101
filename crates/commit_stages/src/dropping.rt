//! The links to an authority that can't stay, dropped; and what waited for its key, handed on.
ghost use Rattle.std.specs.Prelude.{◌≡◌, ◌+◌, ◌≤◌, IfOk, OnOk, true};
ghost use Rattle.marc_types.specs.declared.key.Class.TheVariants.{Authority as AnAuthority};
ghost use Rattle.entry_record.specs.Authority.{is_valid_key};
ghost use Rattle.catalogue_rules.specs.State.{linkable_authorities};
ghost use Rattle.linking_laws.specs.Middle.{CanDrop};
ghost use Rattle.linking_laws.specs.Tables.{dropped_at, holds_at};
ghost use Rattle.linking_laws.specs.Weights.{sum_fields};
ghost use Rattle.linked_store.specs.Linked.{IsAhead, IsNumber, ListsSeats, key_of};
ghost use Rattle.commit_stages.specs.Noted.{NotesChanges, noted_with};
ghost use Rattle.commit_stages.specs.Turns.{CarriesOut, IsMadeOf, IsToDo, IsTurned, visits_at};
ghost use Rattle.commit_stages.specs.Dropping.{IsDropTurn, drop_ending, dropping_of, ending_visits, successor_to};

use crate::ending::{EndingLinks, dropped_from};
use crate::exchanging::exchange_made;
use crate::noting::note_change;
use crate::visiting::{lent, visit_field};
use catalogue_rules::Steps;
use field_settling::Held;
use linked_store::LinkedStore;
use marc_types::NoMemory;
use numbering::{Numbering, Seat};
use std::alloc::Global;
use std::sync::ledger::Ledger;

/// Each link to the authority ends, or only those by the base; a field that awaits its key awaits the successor, where there is
/// one. Each field that changes so is given its choice, and its seat is noted. Where memory ends, the caller can take back what was
/// done.
pub fn drop_links<L: Ledger>(
    store: &mut LinkedStore,
    alloc: Global,
    number: u32,
    links: EndingLinks<'_>,
    noted: &mut Numbering<Seat>,
    steps: &mut Steps<L>,
) -> Result<(), NoMemory>
    requires number { IsNumber AnAuthority number store.old.keys }
    requires key { key_of AnAuthority number store.old.keys ≡ links.key.now }
    requires valid { is_valid_key links.key.now ≡ true }
    requires can { CanDrop (dropping_of links) links.key.now store.old.state }
    ensures ok { OnOk result (CarriesOut (drop_ending links.entry (linkable_authorities store.old.state)) store.old store.new) }
    ensures noted { OnOk result (NotesChanges (drop_ending links.entry (linkable_authorities store.old.state)) store.old noted.old noted.new) }
    ensures ahead { IsAhead store.old store.new }
    ensures visits { steps.new ≤ steps.old + sum_fields (ending_visits links.entry (linkable_authorities store.old.state)) store.old.state }
{
    let seats = store.dropped(alloc, number, links.successor)?;
    drop_at_seats(store, alloc, &seats, links, noted, steps)
}

// The seats are those of all places that dropping looks at.
fn drop_at_seats<L: Ledger>(
    store: &mut LinkedStore,
    alloc: Global,
    seats: &[Seat],
    links: EndingLinks<'_>,
    noted: &mut Numbering<Seat>,
    steps: &mut Steps<L>,
) -> Result<(), NoMemory>
    requires lists { ListsSeats store.old.keys (holds_at (dropped_at links.key.now (successor_to links)) store.old.state) seats.now }
    requires can { CanDrop (dropping_of links) links.key.now store.old.state }
    ensures ok { OnOk result (CarriesOut (drop_ending links.entry (linkable_authorities store.old.state)) store.old store.new) }
    ensures noted { OnOk result (NotesChanges (drop_ending links.entry (linkable_authorities store.old.state)) store.old noted.old noted.new) }
    ensures ahead { IsAhead store.old store.new }
    ensures visits { steps.new ≤ steps.old + sum_fields (ending_visits links.entry (linkable_authorities store.old.state)) store.old.state }
{
    store.each_key_has_one_number();
    for seat in seats {
        drop_at(store, alloc, *seat, links, noted, steps)?;
    }
    Ok(())
}

// One turn.
fn drop_at<L: Ledger>(
    store: &mut LinkedStore,
    alloc: Global,
    seat: Seat,
    links: EndingLinks<'_>,
    noted: &mut Numbering<Seat>,
    steps: &mut Steps<L>,
) -> Result<(), NoMemory>
    requires to_do { IsToDo (dropped_at links.key.now (successor_to links)) seat store.old }
    requires turn { IsDropTurn (dropping_of links) links.key.now seat store.old }
    ensures ok { OnOk result (IsTurned (drop_ending links.entry (linkable_authorities store.old.state)) seat store.old store.new) }
    ensures noted { OnOk result (noted.new ≡ noted_with (drop_ending links.entry (linkable_authorities store.old.state)) store.old seat noted.old) }
    ensures ahead { IsAhead store.old store.new }
    ensures visits { steps.new ≤ steps.old + visits_at (ending_visits links.entry (linkable_authorities store.old.state)) store.old seat }
{
    let made = dropped(store, alloc, seat, links, noted, steps)?;
    exchange_made(store, alloc, seat, made)
}

// What dropping makes of the field at a seat, which is noted where that is another one.
fn dropped<L: Ledger>(
    store: &LinkedStore,
    alloc: Global,
    seat: Seat,
    links: EndingLinks<'_>,
    noted: &mut Numbering<Seat>,
    steps: &mut Steps<L>,
) -> Result<Option<Held>, NoMemory>
    requires to_do { IsToDo (dropped_at links.key.now (successor_to links)) seat store.now }
    requires turn { IsDropTurn (dropping_of links) links.key.now seat store.now }
    ensures made { IfOk result (IsMadeOf (drop_ending links.entry (linkable_authorities store.now.state)) seat store.now) }
    ensures noted { OnOk result (noted.new ≡ noted_with (drop_ending links.entry (linkable_authorities store.now.state)) store.now seat noted.old) }
    ensures visits { steps.new ≤ steps.old + visits_at (ending_visits links.entry (linkable_authorities store.now.state)) store.now seat }
{
    match visit_field(store, alloc, seat, steps)? {
        Some(found) => {
            let at = lent(&found);
            let made = dropped_from(store, alloc, seat.class, at, links, steps)?;
            note_change(alloc, seat, at, &made, noted)?;
            Ok(made)
        }
        None => Ok(None),
    }
}
