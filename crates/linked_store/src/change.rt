use form_index::FormRow;
use marc_types::Class;
use numbered_store::StoredRecord;
use numbering::Seat;
use wait_table::Waiting;

/// A change that was made, with what stood there before.
#[derive(Drop)]
pub(crate) enum Change {
    Exchanged {
        class: Class,
        number: u32,
        before: Option<StoredRecord>,
    },
    Followed {
        number: u32,
        before: Option<FormRow>,
    },
    Relinked {
        seat: Seat,
        before: Option<u32>,
    },
    Awaited {
        seat: Seat,
        before: Option<Waiting>,
    },
}
