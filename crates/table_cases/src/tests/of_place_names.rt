ghost use Rattle.std.specs.Prelude.{◌≡◌};
ghost use Rattle.marc_types.specs.declared.key.Class.TheVariants.{Bibliographic as ABibliographic};

use marc_types::{Class, NoMemory};
use numbering::Seat;
use postings::{Counts, Slots};
use std::alloc::Global;
use std::test::Fail;

// What a look-up answers a test's proof needn't know.
fn count_of(alloc: Global, counts: &Counts<u32>, name: u32) -> Result<usize, NoMemory> {
    Ok(counts.things(alloc, name)?.len())
}

#[test]
fn things_stand_as_often_as_they_were_noted(rt: HostRuntime) -> Result<(), Fail> {
    let alloc = rt.alloc();
    let mut counts: Counts<u32> = Counts::new(alloc);
    counts.note_all(alloc, &[1, 2, 2], 7)?;
    counts.forget_all(&[1, 2], 7);
    assert!(rt; count_of(alloc, &counts, 1)? == 0);
    assert!(rt; count_of(alloc, &counts, 2)? == 1);
    Ok(())
}

fn seat(field: u32) -> Seat
    ensures { result ≡ record { class = ABibliographic; number = 700; field = field } }
{
    Seat {
        class: Class::Bibliographic,
        number: 700,
        field,
    }
}

fn row_at(slots: &Slots<u32>, seat: Seat) -> Option<u32> {
    slots.row(seat).copied()
}

/// A row of a later field comes before that of an earlier one.
#[test]
#[tactic(auto, unfolding(numbering::specs::Seats::same_seat))]
fn each_field_has_its_row(rt: HostRuntime) -> Result<(), Fail> {
    let alloc = rt.alloc();
    let mut slots: Slots<u32> = Slots::new(alloc);
    let (later, earlier) = (seat(7), seat(3));
    slots.make_room(alloc, later)?;
    slots.put(later, 20);
    slots.make_room(alloc, earlier)?;
    slots.put(earlier, 30);
    assert!(rt; slots.take(later) == Some(20));
    slots.let_go(later);
    assert!(rt; row_at(&slots, later) == None);
    assert!(rt; row_at(&slots, earlier) == Some(30));
    Ok(())
}
