ghost use Rattle.std.specs.Prelude.{◌≡◌, if◌then◌else◌, ◌+◌, ◌-◌, ◌≤◌, OnOk, OnErr, Option, option_copied, Some, None};
ghost use Rattle.numbering.specs.declared.seat.Seat.{Seat as ASeat};
ghost use Rattle.numbering.specs.Seats.{same_seat};
ghost use Rattle.postings.specs.Slot.{exchanged, let_go, roomier};

use crate::class_slots::ClassSlots;
use marc_types::{Class, NoMemory};
use numbering::Seat;
use std::alloc::Global;

/// For each seat at most one row, and room for all rows of it that exist: for the one that stands and for those that are taken.
#[derive(Drop)]
pub struct Slots<R> {
    authorities: ClassSlots<R>,
    bibliographic: ClassSlots<R>,
}

#[tactic(auto, unfolding(numbering::specs::Seats::same_seat))]
impl<R: Drop> Slots<R> {
    ghost use Rattle.postings.specs.Slots.{IsChangedAt, IsSameAt, row_at, rooms_at, slot_at, standing, put};

    /// No seat has a row or room for one.
    pub fn new(alloc: Global) -> Slots<R>
        ensures rows { (seat : ASeat) → row_at result seat ≡ None }
        ensures rooms { (seat : ASeat) → rooms_at result seat ≡ 0 }
    {
        Slots {
            authorities: ClassSlots::new(alloc),
            bibliographic: ClassSlots::new(alloc),
        }
    }

    /// The row that stands for the seat.
    pub fn row(&self, seat: Seat) -> Option<&R>
        ensures { option_copied result ≡ row_at self.now seat }
    {
        match seat.class {
            Class::Authority => self.authorities.row(seat.number, seat.field),
            Class::Bibliographic => self.bibliographic.row(seat.number, seat.field),
        }
    }

    // Puts this row, or none, in place of the one that stands for the seat, and gives that.
    fn exchange(&mut self, seat: Seat, row: Option<R>) -> Option<R>
        ensures before { result ≡ row_at self.old seat }
        ensures now { IsChangedAt seat (exchanged row) self.old self.new }
    {
        match seat.class {
            Class::Authority => self.authorities.exchange(seat.number, seat.field, row),
            Class::Bibliographic => self.bibliographic.exchange(seat.number, seat.field, row),
        }
    }

    // Room for one more row of the seat.
    fn add_room(&mut self, alloc: Global, seat: Seat) -> Result<(), NoMemory>
        ensures ok { OnOk result (IsChangedAt seat (roomier seat.field) self.old self.new) }
        ensures err { OnErr result (IsSameAt self.old self.new) }
    {
        match seat.class {
            Class::Authority => self.authorities.make_room(alloc, seat.number, seat.field)?,
            Class::Bibliographic => self
                .bibliographic
                .make_room(alloc, seat.number, seat.field)?,
        }
        Ok(())
    }

    // Gives up the room of a row of the seat.
    fn lose_room(&mut self, seat: Seat)
        ensures { IsChangedAt seat let_go self.old self.new }
    {
        match seat.class {
            Class::Authority => self.authorities.let_go(seat.number, seat.field),
            Class::Bibliographic => self.bibliographic.let_go(seat.number, seat.field),
        }
    }

    /// Room for one more row of the seat. `NoMemory` leaves all as it was.
    pub fn make_room(&mut self, alloc: Global, seat: Seat) -> Result<(), NoMemory>
        ensures rows { (s : ASeat) → row_at self.new s ≡ row_at self.old s }
        ensures ok { OnOk result ((s : ASeat) → rooms_at self.new s ≡ rooms_at self.old s + (if same_seat seat s then 1 else 0)) }
        ensures err { OnErr result ((s : ASeat) → rooms_at self.new s ≡ rooms_at self.old s) }
    {
        self.add_room(alloc, seat)?;
        Ok(())
    }

    /// Takes the seat's row out. Its room stays.
    pub fn take(&mut self, seat: Seat) -> Option<R>
        ensures row { result ≡ row_at self.old seat }
        ensures rows { (s : ASeat) → row_at self.new s ≡ put same_seat seat None (row_at self.old) s }
        ensures rooms { (s : ASeat) → rooms_at self.new s ≡ rooms_at self.old s }
    {
        self.exchange(seat, None)
    }

    /// Puts a row into the seat's room.
    pub fn put(&mut self, seat: Seat, row: R)
        requires { 1 ≤ rooms_at self.old seat }
        ensures rows { (s : ASeat) → row_at self.new s ≡ put same_seat seat (Some row) (row_at self.old) s }
        ensures rooms { (s : ASeat) → rooms_at self.new s ≡ rooms_at self.old s }
    {
        self.exchange(seat, Some(row));
    }

    /// Gives up the room of a row of the seat that was taken.
    pub fn let_go(&mut self, seat: Seat)
        requires { standing (row_at self.old seat) + 1 ≤ rooms_at self.old seat }
        ensures rows { (s : ASeat) → row_at self.new s ≡ row_at self.old s }
        ensures rooms { (s : ASeat) → rooms_at self.new s ≡ rooms_at self.old s - (if same_seat seat s then 1 else 0) }
    {
        self.lose_room(seat);
    }
}
