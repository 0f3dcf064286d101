ghost use Rattle.std.specs.Prelude.{◌≡◌, ◌+◌, OnOk, OnErr, None};
ghost use Rattle.postings.specs.Slot.{slot_with};

use marc_types::NoMemory;
use std::mem;

/// The rows of one field of one record: the one that stands, and room for all that exist.
#[derive(Drop)]
pub struct Slot<R> {
    pub(crate) field: u32,
    pub(crate) rooms: u32,
    pub(crate) row: Option<R>,
}

impl<R: Drop> Slot<R> {
    /// Room for one row.
    pub(crate) fn new(field: u32) -> Slot<R>
        ensures { result ≡ record { field = field; rooms = 1; row = None } }
    {
        Slot {
            field,
            rooms: 1,
            row: None,
        }
    }

    /// Puts this row, or none, in place of the one that stands, and gives that.
    pub(crate) fn exchange(&mut self, row: Option<R>) -> Option<R>
        ensures before { result ≡ self.old.row }
        ensures now { self.new ≡ slot_with row self.old }
    {
        mem::replace(&mut self.row, row)
    }

    /// Room for one more row.
    pub(crate) fn make_room(&mut self) -> Result<(), NoMemory>
        ensures ok { OnOk result (self.new ≡ record { field = self.old.field; rooms = self.old.rooms + 1; row = self.old.row }) }
        ensures err { OnErr result (self.new ≡ self.old) }
    {
        if self.rooms == u32::MAX {
            return Err(NoMemory);
        }
        self.rooms += 1;
        Ok(())
    }
}
