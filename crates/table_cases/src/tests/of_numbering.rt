use marc_types::{Class, Key, NoMemory, Text};
use numbering::{Numbering, Pages, Seat};
use std::alloc::Global;
use std::hash::Hash;
use std::test::Fail;

fn key(alloc: Global, number: &str) -> Result<Key, NoMemory> {
    Ok(Key {
        code: Text::from_str(alloc, "DLC")?,
        number: Text::from_str(alloc, number)?,
    })
}

fn added(alloc: Global, keys: &mut Numbering<Key>, name: &str) -> Result<u32, NoMemory> {
    keys.add(alloc, &key(alloc, name)?)
}

/// The number of a thing, of which a caller is told nothing: so no case costs a proof.
fn number<T: Eq + Hash>(things: &Numbering<T>, thing: &T) -> Option<u32> {
    things.number_of(thing)
}

fn number_of(alloc: Global, keys: &Numbering<Key>, name: &str) -> Result<Option<u32>, NoMemory> {
    Ok(number(keys, &key(alloc, name)?))
}

fn stands_at(
    alloc: Global,
    keys: &Numbering<Key>,
    number: u32,
    name: &str,
) -> Result<bool, NoMemory> {
    Ok(keys.at(number) == Some(&key(alloc, name)?))
}

/// Whether there are two keys, and none behind them.
fn are_two(keys: &Numbering<Key>) -> bool {
    keys.at(2).is_none() && keys.len() == 2
}

const ADDED: [(&str, u32); 3] = [("n 1", 0), ("n 2", 1), ("n 1", 0)];

const FOUND: [(&str, Option<u32>); 2] = [("n 2", Some(1)), ("n 3", None)];

#[test]
fn keys_keep_their_numbers(rt: HostRuntime) -> Result<(), Fail> {
    let alloc = rt.alloc();
    let mut keys = Numbering::new(alloc);
    for (name, number) in &ADDED {
        assert!(rt; added(alloc, &mut keys, name)? == *number);
    }
    for (name, number) in &FOUND {
        assert!(rt; number_of(alloc, &keys, name)? == *number);
    }
    assert!(rt; stands_at(alloc, &keys, 1, "n 2")?);
    assert!(rt; are_two(&keys));
    Ok(())
}

fn seat(class: Class, field: u32) -> Seat {
    Seat {
        class,
        number: 7,
        field,
    }
}

fn seat_added(alloc: Global, seats: &mut Numbering<Seat>, field: u32) -> Result<u32, NoMemory> {
    seats.add(alloc, &seat(Class::Authority, field))
}

#[test]
fn seats_differ_by_each_part(rt: HostRuntime) -> Result<(), Fail> {
    let alloc = rt.alloc();
    let mut seats = Numbering::new(alloc);
    for field in 0..2 {
        assert!(rt; seat_added(alloc, &mut seats, field)? == field);
    }
    assert!(rt; number(&seats, &seat(Class::Bibliographic, 0)) == None);
    Ok(())
}

/// A high number comes before a low one.
#[test]
fn rows_stand_in_pages(rt: HostRuntime) -> Result<(), Fail> {
    let alloc = rt.alloc();
    let mut rows: Pages<Option<u32>> = Pages::new(alloc);
    rows.reach(alloc, 5_000)?;
    *rows.row_mut(5_000) = Some(50);
    assert!(rt; rows.get(5_001) == Some(&None));
    assert!(rt; rows.get(3) == None);
    rows.reach(alloc, 3)?;
    if let Some(row) = rows.get_mut(3) {
        *row = Some(30);
    }
    assert!(rt; rows.get(3) == Some(&Some(30)));
    assert!(rt; rows.get(5_000) == Some(&Some(50)));
    Ok(())
}
