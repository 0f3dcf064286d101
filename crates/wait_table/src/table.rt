ghost use Rattle.std.specs.Prelude.{◌≡◌, nat_eq, OnOk, OnErr, IfOk, IfSome, IfNone, None, Some, filter, option_copied};
ghost use Rattle.numbering.specs.Seats.{same_seat};
ghost use Rattle.postings.specs.Slots.{row_at, rooms_at};
ghost use Rattle.postings.specs.Counts.{times, brought, TimesSame, TimesMore, TimesLess};
ghost use Rattle.postings.specs.Listed.{ListsEach};
ghost use Rattle.wait_table.specs.Waits.{forms_of};
ghost use Rattle.wait_table.specs.Sound.{WaitsAgree};

use crate::{Asked, WaitRow, Waiting};
use marc_types::NoMemory;
use numbering::{Seat, Seats};
use postings::{Counts, Slots};
use std::alloc::Global;

/// What each seat waits for, and which seats wait for a form or for a key.
#[derive(Drop)]
pub struct WaitTable {
    slots: Slots<Waiting>,
    forms: Counts<Seat>,
    keys: Counts<Seat>,
    ghost sound: { WaitsAgree (row_at slots) (rooms_at slots) (times same_seat forms.groups)
        (times same_seat keys.groups) },
}

// One more of the seat under each form that is asked for.
fn note_forms(
    forms: &mut Counts<Seat>,
    alloc: Global,
    asked: Asked,
    seat: Seat,
) -> Result<(), NoMemory>
    ensures ok { OnOk result (TimesMore (brought nat_eq same_seat (forms_of asked) seat)
        (times same_seat forms.old.groups) (times same_seat forms.new.groups)) }
    ensures err { OnErr result (TimesSame (times same_seat forms.old.groups) (times same_seat forms.new.groups)) }
{
    match asked {
        Asked::One(own) => forms.note_all(alloc, &[own], seat)?,
        Asked::Two(own, base) => forms.note_all(alloc, &[own, base], seat)?,
    }
    Ok(())
}

// One less of the seat under each form that is asked for.
fn forget_forms(forms: &mut Counts<Seat>, asked: Asked, seat: Seat)
    ensures { TimesLess (brought nat_eq same_seat (forms_of asked) seat)
        (times same_seat forms.old.groups) (times same_seat forms.new.groups) }
{
    match asked {
        Asked::One(own) => forms.forget_all(&[own], seat),
        Asked::Two(own, base) => forms.forget_all(&[own, base], seat),
    }
}

#[tactic(auto, unfolding(crate::specs::Table::waits))]
impl WaitTable {
    ghost use Rattle.wait_table.specs.Waits.{no_waits, with_waiting, more_taken, less_taken, with_row_taken, with_row_back, row_of, asks, names, IsTaken};
    ghost use Rattle.wait_table.specs.Table.{waits};

    /// No seat waits.
    pub fn new(alloc: Global) -> WaitTable
        ensures { waits result ≡ no_waits }
    {
        WaitTable {
            slots: Slots::new(alloc),
            forms: Counts::new(alloc),
            keys: Counts::new(alloc),
        }
    }

    /// What the seat waits for.
    pub fn row(&self, seat: Seat) -> Option<&Waiting>
        ensures { option_copied result ≡ (waits self.now).waiting seat }
    {
        self.slots.row(seat)
    }

    /// Lets the seat wait for all that the row says. `NoMemory` leaves everything as it was.
    pub fn add(&mut self, alloc: Global, row: WaitRow) -> Result<(), NoMemory>
        requires { (waits self.old).waiting row.seat ≡ None }
        ensures ok { OnOk result (waits self.new ≡ with_waiting row.seat (Some row.waiting) (waits self.old)) }
        ensures err { OnErr result (waits self.new ≡ waits self.old) }
    {
        self.make_room(alloc, &row)?;
        self.put_back(row);
        Ok(())
    }

    // The table with one more row that is taken.
    fn make_room(&mut self, alloc: Global, row: &WaitRow) -> Result<(), NoMemory>
        ensures ok { OnOk result (waits self.new ≡ more_taken row.now (waits self.old)) }
        ensures err { OnErr result (waits self.new ≡ waits self.old) }
    {
        self.slots.make_room(alloc, row.seat)?;
        let asked = row.waiting.forms;
        if let Err(error) = note_forms(&mut self.forms, alloc, asked, row.seat) {
            self.slots.let_go(row.seat);
            return Err(error);
        }
        if let Err(error) = self
            .keys
            .note_all(alloc, row.waiting.keys.as_slice(), row.seat)
        {
            forget_forms(&mut self.forms, asked, row.seat);
            self.slots.let_go(row.seat);
            return Err(error);
        }
        Ok(())
    }

    /// Takes the seat's whole row out, if there is one. It may come back by `put_back`, or be let go.
    pub fn take(&mut self, seat: Seat) -> Option<WaitRow>
        ensures row { result ≡ row_of seat ((waits self.old).waiting seat) }
        ensures some { IfSome result (λ row. waits self.new ≡ with_row_taken row (waits self.old)) }
        ensures none { IfNone result (waits self.new ≡ waits self.old) }
        ensures taken { IfSome result (λ row. IsTaken row (waits self.new)) }
        ensures free { (waits self.new).waiting seat ≡ None }
        ensures undone { IfSome result (λ row. with_row_back row (waits self.new) ≡ waits self.old) }
    {
        let Some(waiting) = self.slots.take(seat) else {
            return None;
        };
        Some(WaitRow { seat, waiting })
    }

    /// Puts a row back that was taken.
    pub fn put_back(&mut self, row: WaitRow)
        requires taken { IsTaken row (waits self.old) }
        requires free { (waits self.old).waiting row.seat ≡ None }
        ensures { waits self.new ≡ with_row_back row (waits self.old) }
    {
        self.slots.put(row.seat, row.waiting);
    }

    /// Lets a row go that was taken, and gives back its room.
    pub fn let_go(&mut self, row: WaitRow)
        requires { IsTaken row (waits self.old) }
        ensures { waits self.new ≡ less_taken row (waits self.old) }
    {
        self.slots.let_go(row.seat);
        forget_forms(&mut self.forms, row.waiting.forms, row.seat);
        self.keys.forget_all(row.waiting.keys.as_slice(), row.seat);
    }

    /// All seats that wait for the form.
    pub fn by_form(&self, alloc: Global, form: u32) -> Result<Seats, NoMemory>
        ensures { IfOk result (λ seats. ListsEach same_seat (asks form (waits self.now)) seats.items) }
    {
        let mut seats = self.forms.things(alloc, form)?;
        self.keep_asking(&mut seats, form);
        Ok(seats)
    }

    /// All seats that wait for the key.
    pub fn by_key(&self, alloc: Global, key: u32) -> Result<Seats, NoMemory>
        ensures { IfOk result (λ seats. ListsEach same_seat (names key (waits self.now)) seats.items) }
    {
        let mut seats = self.keys.things(alloc, key)?;
        self.keep_naming(&mut seats, key);
        Ok(seats)
    }

    // Of the seats those stay that wait for the form.
    fn keep_asking(&self, seats: &mut Seats, form: u32)
        ensures { seats.new.items ≡ filter (asks form (waits self.now)) seats.old.items }
    {
        seats.retain(|seat| self.asks(*seat, form));
    }

    // Of the seats those stay that wait for the key.
    fn keep_naming(&self, seats: &mut Seats, key: u32)
        ensures { seats.new.items ≡ filter (names key (waits self.now)) seats.old.items }
    {
        seats.retain(|seat| self.names(*seat, key));
    }

    // Whether the seat waits for the form.
    fn asks(&self, seat: Seat, form: u32) -> bool
        ensures { result ≡ asks form (waits self.now) seat }
    {
        match self.slots.row(seat) {
            None => false,
            Some(waiting) => waiting.asks(form),
        }
    }

    // Whether the seat waits for the key.
    fn names(&self, seat: Seat, key: u32) -> bool
        ensures { result ≡ names key (waits self.now) seat }
    {
        match self.slots.row(seat) {
            None => false,
            Some(waiting) => waiting.names(key),
        }
    }
}
