//! A field that comes in place of one that is linked to the same authority: it waits for nothing either, and so all rows stay.
ghost use Rattle.std.specs.Prelude.{◌≡◌, true, OnOk, OnErr};
ghost use Rattle.catalogue_rules.specs.State.{kept_field};
ghost use Rattle.catalogue_tables.specs.Seam.{HasKey, place_at};
ghost use Rattle.linking_laws.specs.Partway.{swapped};
ghost use Rattle.numbered_store.specs.Kept.{kept_record};
ghost use Rattle.numbered_store.specs.Numbered.{field_of as field_by_number};
ghost use Rattle.catalogue_rules.specs.Store.{field_at};
ghost use Rattle.linked_store.specs.Linked.{IsAhead, SuitsSeat, field_of};
ghost use Rattle.linked_store.specs.Staying.{is_linked_alike, same_link};

use crate::back::go_back;
use crate::store::LinkedStore;
use crate::transaction::Transaction;
use marc_types::{Field, NoMemory, Tie};
use numbered_store::StoredRecord;
use numbering::Seat;
use std::alloc::Global;

impl LinkedStore {
    /// Whether the field at a seat is linked to the key to which a tie links another.
    pub(crate) fn is_linked_alike(&self, seat: Seat, tie: &Tie) -> bool
        requires { HasKey self.now.keys seat }
        ensures { result ≡ is_linked_alike tie.now (field_of seat self.now) }
    {
        self.transaction.is_linked_alike(seat, tie)
    }

    /// Puts a field and its tie at a seat where a field stands that is linked to the same key.
    pub(crate) fn exchange_alike(
        &mut self,
        alloc: Global,
        seat: Seat,
        field: Field,
        tie: Tie,
    ) -> Result<(), NoMemory>
        requires suits { SuitsSeat seat (kept_field field tie) self.old }
        requires alike { is_linked_alike tie (field_of seat self.old) ≡ true }
        ensures ok { OnOk result (self.new.state ≡ swapped (place_at self.old.keys seat) (kept_field field tie) self.old.state) }
        ensures err { OnErr result (self.new.state ≡ self.old.state) }
        ensures ahead { IsAhead self.old self.new }
    {
        self.transaction.tables.each_form_has_one_number();
        let position = self.transaction.log.len();
        if let Err(error) = self.transaction.swap(alloc, seat, &field, tie) {
            go_back(&mut self.transaction, position);
            return Err(error);
        }
        Ok(())
    }
}

impl Transaction {
    fn is_linked_alike(&self, seat: Seat, tie: &Tie) -> bool
        ensures { result ≡ is_linked_alike tie.now (field_by_number seat self.now.store) }
    {
        match self.store.look(seat.class, seat.number) {
            Some(kept) => is_linked_alike_in(kept, seat.field, tie),
            None => false,
        }
    }
}

#[tactic(auto, using(crate::proofs::Stayed::alike_read, crate::proofs::Stayed::alike_off))]
fn is_linked_alike_in(kept: &StoredRecord, place: u32, tie: &Tie) -> bool
    ensures { result ≡ is_linked_alike tie.now (field_at place (kept_record kept.now)) }
{
    match kept.tie_at(place) {
        Some(own) => has_same_link(own, tie),
        None => false,
    }
}

fn has_same_link(own: &Tie, tie: &Tie) -> bool
    ensures { result ≡ same_link own.now tie.now }
{
    match (&own.key, &tie.key) {
        (Some(own), Some(key)) => own == key,
        _ => false,
    }
}
