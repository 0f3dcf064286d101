//! The heading of an authority carried to all fields that are linked to it.
ghost use Rattle.std.specs.Prelude.{◌≡◌, ◌+◌, ◌≤◌, IfOk, OnOk};
ghost use Rattle.marc_types.specs.declared.key.Class.TheVariants.{Authority as AnAuthority};
ghost use Rattle.catalogue_rules.specs.State.{linkable_authorities};
ghost use Rattle.linking_laws.specs.Middle.{IsMiddle};
ghost use Rattle.linking_laws.specs.Tables.{holds_at, linked_at};
ghost use Rattle.linking_laws.specs.Weights.{sum_fields};
ghost use Rattle.linked_store.specs.Linked.{IsAhead, IsNumber, ListsSeats, key_of};
ghost use Rattle.linked_store.specs.Placing.{own_record};
ghost use Rattle.field_settling.specs.Held.{heading_as};
ghost use Rattle.commit_stages.specs.Noted.{NotesChanges, noted_with};
ghost use Rattle.commit_stages.specs.Turns.{CarriesOut, IsMadeOf, IsToDo, IsTurned, visits_at};
ghost use Rattle.commit_stages.specs.Carrying.{CanCarry, IsHeadingOf, carry_heading, carry_in, carry_visits_in, linked_visits};

use crate::exchanging::exchange_made;
use crate::headings::look_at_heading;
use crate::noting::note_another;
use crate::visiting::{lent, visit_field};
use catalogue_rules::Steps;
use field_settling::{Heading, Held, link_to};
use linked_store::{LinkedStore, OwnRecord};
use marc_types::{Key, NoMemory};
use numbering::{Numbering, Seat};
use std::alloc::Global;
use std::sync::ledger::Ledger;

/// Each field that is linked to the authority is rewritten from its heading, which is read from its record, the commit's own. The
/// seats whose field changes are noted. Where memory ends, the caller can take back what was done.
pub fn carry<L: Ledger>(
    store: &mut LinkedStore,
    alloc: Global,
    number: u32,
    own: OwnRecord,
    key: &Key,
    noted: &mut Numbering<Seat>,
    steps: &mut Steps<L>,
) -> Result<(), NoMemory>
    requires number { IsNumber AnAuthority number store.old.keys }
    requires own { own ≡ own_record AnAuthority number }
    requires key { key_of AnAuthority number store.old.keys ≡ key.now }
    requires heading { CanCarry key.now number store.old }
    requires middle { IsMiddle store.old.state }
    ensures ok { OnOk result (CarriesOut (carry_in key.now store.old.state) store.old store.new) }
    ensures noted { OnOk result (NotesChanges (carry_in key.now store.old.state) store.old noted.old noted.new) }
    ensures ahead { IsAhead store.old store.new }
    ensures visits { steps.new ≤ steps.old + sum_fields (carry_visits_in key.now store.old.state) store.old.state }
{
    let seats = store.linked(alloc, number)?;
    carry_from(store, alloc, number, own, &seats, key, noted, steps)
}

// The seats are those of all places that are linked to the key. Where there is one, the heading is decoded once for all.
fn carry_from<L: Ledger>(
    store: &mut LinkedStore,
    alloc: Global,
    number: u32,
    own: OwnRecord,
    seats: &[Seat],
    key: &Key,
    noted: &mut Numbering<Seat>,
    steps: &mut Steps<L>,
) -> Result<(), NoMemory>
    requires number { IsNumber AnAuthority number store.old.keys }
    requires own { own ≡ own_record AnAuthority number }
    requires lists { ListsSeats store.old.keys (holds_at (linked_at key.now) store.old.state) seats.now }
    requires heading { CanCarry key.now number store.old }
    requires middle { IsMiddle store.old.state }
    ensures ok { OnOk result (CarriesOut (carry_in key.now store.old.state) store.old store.new) }
    ensures noted { OnOk result (NotesChanges (carry_in key.now store.old.state) store.old noted.old noted.new) }
    ensures ahead { IsAhead store.old store.new }
    ensures visits { steps.new ≤ steps.old + sum_fields (carry_visits_in key.now store.old.state) store.old.state }
{
    store.each_key_has_one_number();
    if seats.is_empty() {
        return Ok(());
    }
    match look_at_heading(store, alloc, number, own)? {
        Some(own) => {
            let heading = own.lent();
            carry_to(store, alloc, seats, key, heading, noted, steps)
        }
        None => Ok(()),
    }
}

// The seats are those of all places that are linked to the key.
fn carry_to<L: Ledger>(
    store: &mut LinkedStore,
    alloc: Global,
    seats: &[Seat],
    key: &Key,
    heading: Heading<'_>,
    noted: &mut Numbering<Seat>,
    steps: &mut Steps<L>,
) -> Result<(), NoMemory>
    requires lists { ListsSeats store.old.keys (holds_at (linked_at key.now) store.old.state) seats.now }
    requires heading { IsHeadingOf key.now (heading_as heading) (linkable_authorities store.old.state) }
    requires middle { IsMiddle store.old.state }
    ensures ok { OnOk result (CarriesOut (carry_heading key.now (heading_as heading.entry)) store.old store.new) }
    ensures noted { OnOk result (NotesChanges (carry_heading key.now (heading_as heading.entry)) store.old noted.old noted.new) }
    ensures ahead { IsAhead store.old store.new }
    ensures visits { steps.new ≤ steps.old + sum_fields (linked_visits key.now) store.old.state }
{
    store.each_key_has_one_number();
    for seat in seats {
        carry_at(store, alloc, *seat, key, heading, noted, steps)?;
    }
    Ok(())
}

// One turn.
fn carry_at<L: Ledger>(
    store: &mut LinkedStore,
    alloc: Global,
    seat: Seat,
    key: &Key,
    heading: Heading<'_>,
    noted: &mut Numbering<Seat>,
    steps: &mut Steps<L>,
) -> Result<(), NoMemory>
    requires to_do { IsToDo (linked_at key.now) seat store.old }
    requires heading { IsHeadingOf key.now (heading_as heading) (linkable_authorities store.old.state) }
    requires middle { IsMiddle store.old.state }
    ensures ok { OnOk result (IsTurned (carry_heading key.now (heading_as heading.entry)) seat store.old store.new) }
    ensures noted { OnOk result (noted.new ≡ noted_with (carry_heading key.now (heading_as heading.entry)) store.old seat noted.old) }
    ensures ahead { IsAhead store.old store.new }
    ensures visits { steps.new ≤ steps.old + visits_at (linked_visits key.now) store.old seat }
{
    let made = carried(store, alloc, seat, key, heading, noted, steps)?;
    exchange_made(store, alloc, seat, made)
}

// The field at a seat with the heading carried to it, where that is another field: then the seat is noted.
fn carried<L: Ledger>(
    store: &LinkedStore,
    alloc: Global,
    seat: Seat,
    key: &Key,
    heading: Heading<'_>,
    noted: &mut Numbering<Seat>,
    steps: &mut Steps<L>,
) -> Result<Option<Held>, NoMemory>
    requires to_do { IsToDo (linked_at key.now) seat store.now }
    requires heading { IsHeadingOf key.now (heading_as heading) (linkable_authorities store.now.state) }
    requires middle { IsMiddle store.now.state }
    ensures made { IfOk result (IsMadeOf (carry_heading key.now (heading_as heading.entry)) seat store.now) }
    ensures noted { OnOk result (noted.new ≡ noted_with (carry_heading key.now (heading_as heading.entry)) store.now seat noted.old) }
    ensures step { steps.new ≡ steps.old + 1 }
{
    match visit_field(store, alloc, seat, steps)? {
        Some(found) => {
            let at = lent(&found);
            let held = link_to(alloc, key, heading, seat.class, at.field, at.tie.whole)?;
            note_another(alloc, seat, at, held, noted)
        }
        None => Ok(None),
    }
}
