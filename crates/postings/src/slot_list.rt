ghost use Rattle.std.specs.Prelude.{◌≡◌, ◌<◌, [], ◌∷◌, vec_capacity, OnOk, OnErr, IfOk, IfErr, option_copied};
ghost use Rattle.std.specs.Bool.{OnTrue};
ghost use Rattle.postings.specs.Slot.{IsAt, IsChanged, IsGap, IsRising, IsSame, exchanged, let_go, roomier, slot_row, slot_among};

use crate::slot::Slot;
use marc_types::NoMemory;
use std::alloc::Global;

/// The slots of one record in rising order of their fields.
#[derive(Drop)]
pub struct SlotList<R> {
    slots: Vec<Slot<R>>,
    ghost rising: { IsRising slots.items },
}

impl<R: Drop> SlotList<R> {
    /// No slots, and memory for a few.
    pub(crate) fn new(alloc: Global) -> Result<SlotList<R>, NoMemory>
        ensures empty { IfOk result (λ list. list.slots.items ≡ []) }
        ensures room { IfOk result (λ list. 0 < vec_capacity list.slots) }
    {
        let slots = Vec::with_capacity(alloc, 4)?;
        Ok(SlotList { slots })
    }

    /// Puts the first slot in.
    pub(crate) fn begin(&mut self, slot: Slot<R>)
        requires empty { self.old.slots.items ≡ [] }
        requires room { 0 < vec_capacity self.old.slots }
        ensures { self.new.slots.items ≡ slot ∷ [] }
    {
        self.slots.push_reserved(slot);
    }

    // Where the slot of the field is, or where it would go.
    fn search(&self, field: u32) -> Result<usize, usize>
        ensures found { IfOk result (IsAt self.now.slots.items field) }
        ensures absent { IfErr result (IsGap self.now.slots.items field) }
    {
        self.slots.binary_search_by_key(&field, |slot| slot.field)
    }

    /// The row that stands for the field.
    pub(crate) fn row(&self, field: u32) -> Option<&R>
        ensures { option_copied result ≡ slot_row (slot_among self.now.slots.items field) }
    {
        match self.search(field) {
            Ok(place) => self.slots[place].row.as_ref(),
            Err(_) => None,
        }
    }

    /// Puts this row, or none, in place of the one that stands for the field, and gives that.
    pub(crate) fn exchange(&mut self, field: u32, row: Option<R>) -> Option<R>
        ensures before { result ≡ slot_row (slot_among self.old.slots.items field) }
        ensures now { IsChanged field (exchanged row) (slot_among self.old.slots.items) (slot_among self.new.slots.items) }
    {
        match self.search(field) {
            Ok(place) => self.slots[place].exchange(row),
            Err(_) => None,
        }
    }

    /// Room for one more row of the field.
    pub(crate) fn make_room(&mut self, field: u32) -> Result<(), NoMemory>
        ensures ok { OnOk result (IsChanged field (roomier field) (slot_among self.old.slots.items) (slot_among self.new.slots.items)) }
        ensures err { OnErr result (IsSame (slot_among self.old.slots.items) (slot_among self.new.slots.items)) }
    {
        match self.search(field) {
            Ok(place) => self.slots[place].make_room()?,
            Err(place) => self.slots.insert(place, Slot::new(field))?,
        }
        Ok(())
    }

    /// Gives up the room of a row of the field.
    pub(crate) fn let_go(&mut self, field: u32)
        ensures { IsChanged field let_go (slot_among self.old.slots.items) (slot_among self.new.slots.items) }
    {
        let Ok(place) = self.search(field) else {
            return;
        };
        if self.slots[place].rooms > 1 {
            self.slots[place].rooms -= 1;
        } else {
            self.slots.remove(place);
        }
    }

    pub(crate) fn is_empty(&self) -> bool
        ensures { OnTrue result (self.now.slots.items ≡ []) }
    {
        self.slots.is_empty()
    }
}
