ghost use Rattle.std.specs.Prelude.{◌≡◌, ℕ, false, None, OnOk, OnErr, option_copied};
ghost use Rattle.std.specs.Bool.{OnTrue};
ghost use Rattle.postings.specs.Slot.{IsChanged, IsSame, exchanged, let_go, roomier, slot_row};
ghost use Rattle.postings.specs.RecordSlots.{has_other, slot_in};

use crate::slot::Slot;
use crate::slot_list::SlotList;
use marc_types::NoMemory;
use numbering::Blank;
use std::alloc::Global;
use std::mem;

/// The slots of one record. One alone stands in place, more in memory of their own.
#[derive(Drop)]
pub enum RecordSlots<R> {
    Empty,
    One(Slot<R>),
    Few(SlotList<R>),
}

impl<R: Drop> Blank for RecordSlots<R> {
    ghost use Rattle.postings.specs.declared.record_slots.RecordSlots.TheVariants.{Empty};

    ghost blank = { Empty };

    fn blank(_alloc: Global) -> RecordSlots<R> {
        RecordSlots::Empty
    }
}

impl<R: Drop> RecordSlots<R> {
    /// The row that stands for the field.
    pub(crate) fn row(&self, field: u32) -> Option<&R>
        ensures { option_copied result ≡ slot_row (slot_in self.now field) }
    {
        match self {
            RecordSlots::Empty => None,
            RecordSlots::One(slot) => {
                if slot.field != field {
                    return None;
                }
                slot.row.as_ref()
            }
            RecordSlots::Few(slots) => slots.row(field),
        }
    }

    /// Puts this row, or none, in place of the one that stands for the field, and gives that.
    pub(crate) fn exchange(&mut self, field: u32, row: Option<R>) -> Option<R>
        ensures before { result ≡ slot_row (slot_in self.old field) }
        ensures now { IsChanged field (exchanged row) (slot_in self.old) (slot_in self.new) }
    {
        match self {
            RecordSlots::Empty => None,
            RecordSlots::One(slot) => {
                if slot.field != field {
                    return None;
                }
                slot.exchange(row)
            }
            RecordSlots::Few(slots) => slots.exchange(field, row),
        }
    }

    /// Room for one more row of the field.
    pub(crate) fn make_room(&mut self, alloc: Global, field: u32) -> Result<(), NoMemory>
        ensures ok { OnOk result (IsChanged field (roomier field) (slot_in self.old) (slot_in self.new)) }
        ensures err { OnErr result (IsSame (slot_in self.old) (slot_in self.new)) }
    {
        if self.has_other(field) {
            self.spread(alloc)?;
        }
        self.add_room(field)
    }

    // Whether the one slot is another field's.
    fn has_other(&self, field: u32) -> bool
        ensures { result ≡ has_other self.now field }
    {
        match self {
            RecordSlots::One(slot) => slot.field != field,
            _ => false,
        }
    }

    // Moves the one slot to memory where more can follow.
    fn spread(&mut self, alloc: Global) -> Result<(), NoMemory>
        ensures same { IsSame (slot_in self.old) (slot_in self.new) }
        ensures ok { OnOk result ((f : ℕ) → has_other self.new f ≡ false) }
    {
        let mut slots = SlotList::new(alloc)?;
        match mem::replace(self, RecordSlots::Empty) {
            RecordSlots::Empty => {}
            RecordSlots::One(slot) => {
                slots.begin(slot);
                *self = RecordSlots::Few(slots);
            }
            RecordSlots::Few(slots) => *self = RecordSlots::Few(slots),
        }
        Ok(())
    }

    // Room for one more row of the field, where no other has the one slot.
    fn add_room(&mut self, field: u32) -> Result<(), NoMemory>
        requires { has_other self.old field ≡ false }
        ensures ok { OnOk result (IsChanged field (roomier field) (slot_in self.old) (slot_in self.new)) }
        ensures err { OnErr result (IsSame (slot_in self.old) (slot_in self.new)) }
    {
        match self {
            RecordSlots::Empty => *self = RecordSlots::One(Slot::new(field)),
            RecordSlots::One(slot) => slot.make_room()?,
            RecordSlots::Few(slots) => slots.make_room(field)?,
        }
        Ok(())
    }

    /// Gives up the room of a row of the field, and the memory of a record where nothing is left.
    pub(crate) fn let_go(&mut self, field: u32)
        ensures { IsChanged field let_go (slot_in self.old) (slot_in self.new) }
    {
        self.lose_room(field);
        if self.is_blank() {
            *self = RecordSlots::Empty;
        }
    }

    // Gives up the room of a row of the field.
    fn lose_room(&mut self, field: u32)
        ensures { IsChanged field let_go (slot_in self.old) (slot_in self.new) }
    {
        match self {
            RecordSlots::Empty => {}
            RecordSlots::One(slot) => {
                if slot.field != field {
                    return;
                }
                if slot.rooms > 1 {
                    slot.rooms -= 1;
                } else {
                    *self = RecordSlots::Empty;
                }
            }
            RecordSlots::Few(slots) => slots.let_go(field),
        }
    }

    // Whether a list of slots has none.
    fn is_blank(&self) -> bool
        ensures { OnTrue result ((f : ℕ) → slot_in self.now f ≡ None) }
    {
        match self {
            RecordSlots::Few(slots) => slots.is_empty(),
            _ => false,
        }
    }
}
