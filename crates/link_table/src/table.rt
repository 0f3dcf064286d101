ghost use Rattle.std.specs.Prelude.{◌≡◌, OnOk, OnErr, IfOk, IfSome, IfNone, None, Some, filter};
ghost use Rattle.numbering.specs.Seats.{same_seat};
ghost use Rattle.postings.specs.Slots.{row_at, rooms_at};
ghost use Rattle.postings.specs.Counts.{times};
ghost use Rattle.postings.specs.Listed.{ListsEach};
ghost use Rattle.link_table.specs.Sound.{LinksAgree};

use crate::Link;
use marc_types::NoMemory;
use numbering::{Seat, Seats};
use postings::{Counts, Slots};
use std::alloc::Global;

/// Links of seats to authorities. A seat is linked to one authority at most.
#[derive(Drop)]
pub struct LinkTable {
    slots: Slots<u32>,
    names: Counts<Seat>,
    ghost sound: { LinksAgree (row_at slots) (rooms_at slots) (times same_seat names.groups) },
}

#[tactic(auto, unfolding(crate::specs::Table::links))]
impl LinkTable {
    ghost use Rattle.link_table.specs.Links.{no_links, with_key, more_taken, less_taken, with_row_taken, with_row_back, row_of, is_linked, IsTaken};
    ghost use Rattle.link_table.specs.Table.{links};

    /// No seat is linked.
    pub fn new(alloc: Global) -> LinkTable
        ensures { links result ≡ no_links }
    {
        LinkTable {
            slots: Slots::new(alloc),
            names: Counts::new(alloc),
        }
    }

    /// The authority to which the seat is linked.
    pub fn key_of(&self, seat: Seat) -> Option<u32>
        ensures { result ≡ (links self.now).key_of seat }
    {
        self.slots.row(seat).copied()
    }

    /// Links the seat to the authority. `NoMemory` leaves everything as it was.
    pub fn add(&mut self, alloc: Global, link: Link) -> Result<(), NoMemory>
        requires { (links self.old).key_of link.seat ≡ None }
        ensures ok { OnOk result (links self.new ≡ with_key link.seat (Some link.number) (links self.old)) }
        ensures err { OnErr result (links self.new ≡ links self.old) }
    {
        self.make_room(alloc, &link)?;
        self.put_back(link);
        Ok(())
    }

    // The table with one more row that is taken.
    fn make_room(&mut self, alloc: Global, link: &Link) -> Result<(), NoMemory>
        ensures ok { OnOk result (links self.new ≡ more_taken link.now (links self.old)) }
        ensures err { OnErr result (links self.new ≡ links self.old) }
    {
        self.slots.make_room(alloc, link.seat)?;
        if let Err(error) = self.names.note(alloc, link.number, link.seat) {
            self.slots.let_go(link.seat);
            return Err(error);
        }
        Ok(())
    }

    /// Takes the seat's link out, if there is one. It may come back by `put_back`, or be let go.
    pub fn take(&mut self, seat: Seat) -> Option<Link>
        ensures row { result ≡ row_of seat ((links self.old).key_of seat) }
        ensures some { IfSome result (λ link. links self.new ≡ with_row_taken link (links self.old)) }
        ensures none { IfNone result (links self.new ≡ links self.old) }
        ensures taken { IfSome result (λ link. IsTaken link (links self.new)) }
        ensures free { (links self.new).key_of seat ≡ None }
        ensures undone { IfSome result (λ link. with_row_back link (links self.new) ≡ links self.old) }
    {
        let Some(number) = self.slots.take(seat) else {
            return None;
        };
        Some(Link { number, seat })
    }

    /// Puts a link back that was taken.
    pub fn put_back(&mut self, link: Link)
        requires taken { IsTaken link (links self.old) }
        requires free { (links self.old).key_of link.seat ≡ None }
        ensures { links self.new ≡ with_row_back link (links self.old) }
    {
        self.slots.put(link.seat, link.number);
    }

    /// Lets a link go that was taken, and gives back its room.
    pub fn let_go(&mut self, link: Link)
        requires { IsTaken link (links self.old) }
        ensures { links self.new ≡ less_taken link (links self.old) }
    {
        self.slots.let_go(link.seat);
        self.names.forget(link.number, link.seat);
    }

    /// All seats that are linked to the authority.
    pub fn of(&self, alloc: Global, number: u32) -> Result<Seats, NoMemory>
        ensures { IfOk result (λ seats. ListsEach same_seat (is_linked number (links self.now)) seats.items) }
    {
        let mut seats = self.names.things(alloc, number)?;
        self.keep_linked(&mut seats, number);
        Ok(seats)
    }

    // Of the seats those stay that are linked to the authority.
    fn keep_linked(&self, seats: &mut Seats, number: u32)
        ensures { seats.new.items ≡ filter (is_linked number (links self.now)) seats.old.items }
    {
        seats.retain(|seat| self.is_linked(*seat, number));
    }

    // Whether the seat is linked to the authority.
    fn is_linked(&self, seat: Seat, number: u32) -> bool
        ensures { result ≡ is_linked number (links self.now) seat }
    {
        match self.slots.row(seat) {
            None => false,
            Some(to) => *to == number,
        }
    }
}
