//! The places that a stage of a commit touches.
ghost use Rattle.std.specs.Prelude.{◌≡◌, ◌++◌, true, IfOk, OnOk, Some, slice_get};
ghost use Rattle.std.specs.List.{IsDistinct};
ghost use Rattle.std.specs.Option.{option_copied, option_to_list};
ghost use Rattle.marc_types.specs.declared.key.Key.{Key as AnyKey};
ghost use Rattle.numbering.specs.Seats.{same_seat};
ghost use Rattle.marc_types.specs.declared.key.Class.TheVariants.{Authority as AnAuthority};
ghost use Rattle.entry_record.specs.Authority.{is_valid_key};
ghost use Rattle.catalogue_tables.specs.Lent.{shown_forms};
ghost use Rattle.linking_laws.specs.Tables.{dropped_at, linked_at};
ghost use Rattle.linking_laws.specs.Waiting.{is_waiting_for};
ghost use Rattle.linked_store.specs.Linked.{IsNumber, key_of};
ghost use Rattle.linked_store.specs.Finding.{ListsFields};

use crate::store::LinkedStore;
use catalogue_tables::gather;
use marc_types::{Form, Key, NoMemory};
use numbering::{Numbering, Seat, Seats};
use std::alloc::Global;

impl LinkedStore {
    /// The seats of all places that are linked to the authority, each once, in any order.
    pub fn linked(&self, alloc: Global, number: u32) -> Result<Seats, NoMemory>
        requires { IsNumber AnAuthority number self.now.keys }
        ensures { IfOk result (λ seats. ListsFields self.now (linked_at (key_of AnAuthority number self.now.keys)) seats.items) }
    {
        self.transaction.tables.linked(alloc, number)
    }

    /// The seats of all places that wait for one of the forms or for the key, each once, in any order.
    pub fn waiting(&self, alloc: Global, forms: &[&Form], number: u32) -> Result<Seats, NoMemory>
        requires known { IsNumber AnAuthority number self.now.keys }
        requires valid { is_valid_key (key_of AnAuthority number self.now.keys) ≡ true }
        ensures { IfOk result (λ seats.
            ListsFields self.now (is_waiting_for (shown_forms forms.now) (key_of AnAuthority number self.now.keys)) seats.items) }
    {
        let found = self.transaction.tables.waiting(alloc, forms, number)?;
        let seats = in_turn(alloc, &found)?;
        Ok(seats)
    }

    /// The seats of all places that dropping looks at, each once, in any order: those linked to the authority and, with a successor,
    /// those that wait for its key.
    pub fn dropped(
        &self,
        alloc: Global,
        number: u32,
        successor: Option<&Key>,
    ) -> Result<Seats, NoMemory>
        requires known { IsNumber AnAuthority number self.now.keys }
        requires valid { is_valid_key (key_of AnAuthority number self.now.keys) ≡ true }
        ensures { IfOk result (λ seats.
            ListsFields self.now (dropped_at (key_of AnAuthority number self.now.keys) (option_copied successor.entry)) seats.items) }
    {
        match successor {
            Some(_) => self.linked_or_waiting(alloc, number),
            None => self.linked(alloc, number),
        }
    }

    // The seats of all places that are linked to the authority or wait for its key.
    fn linked_or_waiting(&self, alloc: Global, number: u32) -> Result<Seats, NoMemory>
        requires known { IsNumber AnAuthority number self.now.keys }
        requires valid { is_valid_key (key_of AnAuthority number self.now.keys) ≡ true }
        ensures { IfOk result (λ seats. (other : AnyKey)
            → ListsFields self.now (dropped_at (key_of AnAuthority number self.now.keys) (Some other)) seats.items) }
    {
        let mut found = self.transaction.tables.waiting(alloc, &[], number)?;
        let linked = self.transaction.tables.linked(alloc, number)?;
        gather(&mut found, alloc, &linked)?;
        let seats = in_turn(alloc, &found)?;
        Ok(seats)
    }
}

// The seats of a numbering in the order of their numbers.
#[tactic(auto, using(crate::proofs::Listing::all_taken, crate::proofs::Listing::one_taken))]
fn in_turn(alloc: Global, found: &Numbering<Seat>) -> Result<Seats, NoMemory>
    ensures all { IfOk result (λ seats. seats.items ≡ found.now) }
    ensures once { IsDistinct same_seat found.now }
{
    let mut seats = Vec::new(alloc);
    let known = found.len();
    for number in 0..known {
        push_at(&mut seats, found, number as u32)?;
    }
    Ok(seats)
}

fn push_at(seats: &mut Seats, found: &Numbering<Seat>, number: u32) -> Result<(), NoMemory>
    ensures { OnOk result (seats.new.items ≡ seats.old.items ++ option_to_list (slice_get found.now number)) }
{
    let Some(seat) = found.at(number) else {
        return Ok(());
    };
    seats.push(*seat)?;
    Ok(())
}
