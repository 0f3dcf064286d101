//! The record that a commit has put into its place: the one that it may look at without a step.
ghost use Rattle.std.specs.Prelude.{◌≡◌};
ghost use Rattle.std.specs.Option.{option_map};
ghost use Rattle.numbered_store.specs.Kept.{kept_record};
ghost use Rattle.linked_store.specs.Linked.{IsNumber, record_at};
ghost use Rattle.linked_store.specs.Placing.{seat_in};

use crate::store::LinkedStore;
use marc_types::Class;
use numbered_store::StoredRecord;
use numbering::Seat;

/// A record that `place` has put into its place, by its class and the number of its key. Only `place` makes one.
#[derive(Clone, Copy, Debug)]
pub struct OwnRecord {
    pub(crate) class: Class,
    pub(crate) number: u32,
}

impl OwnRecord {
    /// Its class.
    pub fn class(&self) -> Class
        ensures { result ≡ self.now.class }
    {
        self.class
    }

    /// The number of its key.
    pub fn number(&self) -> u32
        ensures { result ≡ self.now.number }
    {
        self.number
    }

    /// The seat of its field at a place.
    pub fn seat(&self, field: u32) -> Seat
        ensures { result ≡ seat_in self.now.class self.now.number field }
    {
        Seat {
            class: self.class,
            number: self.number,
            field,
        }
    }
}

impl LinkedStore {
    /// The commit's own record, or none behind a deletion. It counts no step.
    pub fn look_at_own(&self, own: OwnRecord) -> Option<&StoredRecord>
        requires { IsNumber own.class own.number self.now.keys }
        ensures { option_map (λ kept. kept_record kept.now) result ≡ record_at own.class own.number self.now }
    {
        self.look(own.class, own.number)
    }
}
