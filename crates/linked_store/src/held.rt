//! Which of the two tables can have a row of a seat, as the field tells that stands there.
ghost use Rattle.std.specs.Prelude.{◌≡◌, is_some, unwrap_or};
ghost use Rattle.std.specs.Option.{option_copied};
ghost use Rattle.heading_fields.specs.Tables.{any_kind};
ghost use Rattle.catalogue_rules.specs.State.{new_tie};
ghost use Rattle.numbered_store.specs.Kept.{kept_record};
ghost use Rattle.numbered_store.specs.Numbered.{field_of};
ghost use Rattle.catalogue_rules.specs.Store.{field_at};
ghost use Rattle.linked_store.specs.Holding.{begins_heading, can_be_heading, row_held, row_held_by};

use crate::transaction::Transaction;
use heading_fields::authority_kind;
use marc_types::{Class, Tag, Tie};
use numbered_store::StoredRecord;
use numbering::Seat;

/// The row that a seat can have.
#[derive(Clone, Copy, Debug)]
pub(crate) enum RowHeld {
    Link,
    Waiting,
    Nothing,
}

impl Transaction {
    /// The row that a seat can have.
    pub(crate) fn row_held(&self, seat: Seat) -> RowHeld
        ensures { result ≡ row_held seat.class (field_of seat self.now.store) }
    {
        match self.store.look(seat.class, seat.number) {
            Some(kept) => row_held_in(seat.class, kept, seat.field),
            None => RowHeld::Nothing,
        }
    }
}

/// The row of the field at a place of a record.
#[tactic(auto, using(crate::proofs::Holding::held_read, crate::proofs::Holding::held_off))]
pub(crate) fn row_held_in(class: Class, kept: &StoredRecord, place: u32) -> RowHeld
    ensures { result ≡ row_held class (field_at place (kept_record kept.now)) }
{
    match kept.tag_at(place) {
        Some(tag) => row_held_with(class, &tag, kept.tie_at(place)),
        None => RowHeld::Nothing,
    }
}

// A linked field has a link, and an unlinked one with the tag of a heading can wait.
fn row_held_with(class: Class, tag: &Tag, tie: Option<&Tie>) -> RowHeld
    ensures { result ≡ row_held_by class tag.now (unwrap_or (option_copied tie.entry) new_tie) }
{
    if is_link(tie) {
        return RowHeld::Link;
    }
    if can_be_heading(tag, class) {
        return RowHeld::Waiting;
    }
    RowHeld::Nothing
}

fn is_link(tie: Option<&Tie>) -> bool
    ensures { result ≡ is_some (unwrap_or (option_copied tie.entry) new_tie).key }
{
    match tie {
        Some(tie) => tie.key.is_some(),
        None => false,
    }
}

/// Whether a field with the tag can be a heading in a record of the class: no other one is decoded to be settled.
pub fn can_be_heading(tag: &Tag, class: Class) -> bool
    ensures { result ≡ can_be_heading class tag.now }
{
    begins_heading(tag.a, class) && has_kind(tag)
}

fn begins_heading(first: u8, class: Class) -> bool
    ensures { result ≡ begins_heading class first }
{
    match class {
        Class::Authority => first == b'5',
        Class::Bibliographic => matches!(first, b'6' | b'1' | b'7' | b'8'),
    }
}

// Whether a tag ends as that of a kind.
#[tactic(auto, unfolding(heading_fields::specs::Tables::authority_kind_of))]
fn has_kind(tag: &Tag) -> bool
    ensures { result ≡ is_some (any_kind tag.now.b tag.now.c) }
{
    let heading = Tag {
        a: b'1',
        b: tag.b,
        c: tag.c,
    };
    authority_kind(&heading).is_some()
}
