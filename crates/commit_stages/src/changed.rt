//! How many records have a seat that was noted.
ghost use Rattle.std.specs.Prelude.{◌≡◌, ◌<◌, length, slice_get, IfOk, OnOk, Some};
ghost use Rattle.catalogue_rules.specs.Receipt.{same_class};
ghost use Rattle.commit_stages.specs.Noted.{AreFirstSeats, AreRecordsOf, is_record_of, with_first};

use marc_types::{Class, NoMemory};
use numbering::{Numbering, Seat};
use std::alloc::Global;

/// How many records have a noted seat, without the one of the class and number.
pub(crate) fn count_records(
    alloc: Global,
    noted: &Numbering<Seat>,
    class: Class,
    number: u32,
) -> Result<u64, NoMemory>
    ensures { IfOk result (λ count. AreRecordsOf noted.now class number count) }
{
    let firsts = first_seats(alloc, noted, class, number)?;
    Ok(firsts.len() as u64)
}

// The first seats of those records.
fn first_seats(
    alloc: Global,
    noted: &Numbering<Seat>,
    class: Class,
    number: u32,
) -> Result<Numbering<Seat>, NoMemory>
    ensures { IfOk result (AreFirstSeats class number noted.now) }
{
    let mut firsts = Numbering::new(alloc);
    let known = noted.len();
    for index in 0..known {
        add_first(
            &mut firsts,
            alloc,
            seat_at(noted, index as u32),
            class,
            number,
        )?;
    }
    Ok(firsts)
}

fn seat_at(noted: &Numbering<Seat>, number: u32) -> Seat
    requires { number < length noted.now }
    ensures { slice_get noted.now number ≡ Some result }
{
    *noted.at(number).unwrap()
}

// The first seat of a seat's record, unless it is the one of the class and number.
fn add_first(
    firsts: &mut Numbering<Seat>,
    alloc: Global,
    seat: Seat,
    class: Class,
    number: u32,
) -> Result<(), NoMemory>
    ensures { OnOk result (firsts.new ≡ with_first class number seat firsts.old) }
{
    if is_record(seat, class, number) {
        return Ok(());
    }
    let first = Seat {
        class: seat.class,
        number: seat.number,
        field: 0,
    };
    firsts.add(alloc, &first)?;
    Ok(())
}

fn is_record(seat: Seat, class: Class, number: u32) -> bool
    ensures { result ≡ is_record_of class number seat.class seat.number }
{
    is_of_class(class, seat.class) && number == seat.number
}

fn is_of_class(class: Class, other: Class) -> bool
    ensures { result ≡ same_class class other }
{
    match class {
        Class::Authority => matches!(other, Class::Authority),
        Class::Bibliographic => matches!(other, Class::Bibliographic),
    }
}
