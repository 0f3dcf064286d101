ghost use Rattle.std.specs.Prelude.{◌≡◌, ℕ, None, OnOk, OnErr, option_copied};
ghost use Rattle.postings.specs.Slot.{exchanged, let_go, roomier, slot_row};
ghost use Rattle.postings.specs.RecordSlots.{IsChangedUnder, IsSameUnder, slot_under};

use crate::record_slots::RecordSlots;
use marc_types::NoMemory;
use numbering::Pages;
use std::alloc::Global;

/// The slots of the records of one class, by the numbers of their keys. A record that isn't reached has none.
#[derive(Drop)]
pub struct ClassSlots<R> {
    records: Pages<RecordSlots<R>>,
}

impl<R: Drop> ClassSlots<R> {
    /// No record has a slot.
    pub(crate) fn new(alloc: Global) -> ClassSlots<R>
        ensures { (n f : ℕ) → slot_under result.records n f ≡ None }
    {
        ClassSlots {
            records: Pages::new(alloc),
        }
    }

    /// The row that stands for a field of a record.
    pub(crate) fn row(&self, number: u32, field: u32) -> Option<&R>
        ensures { option_copied result ≡ slot_row (slot_under self.now.records number field) }
    {
        let record = self.records.get(number)?;
        record.row(field)
    }

    /// Puts this row, or none, in place of the one that stands for a field of a record, and gives that.
    pub(crate) fn exchange(&mut self, number: u32, field: u32, row: Option<R>) -> Option<R>
        ensures before { result ≡ slot_row (slot_under self.old.records number field) }
        ensures now { IsChangedUnder number field (exchanged row) (slot_under self.old.records) (slot_under self.new.records) }
    {
        let record = self.records.get_mut(number)?;
        record.exchange(field, row)
    }

    /// Room for one more row of a field of a record.
    pub(crate) fn make_room(
        &mut self,
        alloc: Global,
        number: u32,
        field: u32,
    ) -> Result<(), NoMemory>
        ensures ok { OnOk result
            (IsChangedUnder number field (roomier field) (slot_under self.old.records) (slot_under self.new.records)) }
        ensures err { OnErr result (IsSameUnder (slot_under self.old.records) (slot_under self.new.records)) }
    {
        self.records.reach(alloc, number)?;
        self.records.row_mut(number).make_room(alloc, field)?;
        Ok(())
    }

    /// Gives up the room of a row of a field of a record.
    pub(crate) fn let_go(&mut self, number: u32, field: u32)
        ensures { IsChangedUnder number field let_go (slot_under self.old.records) (slot_under self.new.records) }
    {
        if let Some(record) = self.records.get_mut(number) {
            record.let_go(field);
        }
    }
}
