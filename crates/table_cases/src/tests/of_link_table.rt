ghost use Rattle.std.specs.Prelude.{◌≡◌, OnOk, None};
ghost use Rattle.link_table.specs.Table.{links};

use link_table::{Link, LinkTable};
use marc_types::{Class, NoMemory};
use numbering::Seat;
use std::alloc::Global;
use std::test::Fail;

// A link that comes and goes leaves the table as it was, also where another link of the seat is taken.
fn visit(table: &mut LinkTable, alloc: Global, link: Link) -> Result<(), NoMemory>
    requires { (links table.old).key_of link.seat ≡ None }
    ensures { OnOk result (links table.new ≡ links table.old) }
{
    let seat = link.seat;
    table.add(alloc, link)?;
    if let Some(taken) = table.take(seat) {
        table.let_go(taken);
    }
    Ok(())
}

// What a look-up answers a test's proof needn't know.
fn count_of(alloc: Global, table: &LinkTable, number: u32) -> Result<usize, NoMemory> {
    Ok(table.of(alloc, number)?.len())
}

fn key_of(table: &LinkTable, seat: Seat) -> Option<u32> {
    table.key_of(seat)
}

#[test]
fn a_link_comes_back_after_another(rt: HostRuntime) -> Result<(), Fail> {
    let alloc = rt.alloc();
    let seat = Seat {
        class: Class::Bibliographic,
        number: 4,
        field: 2,
    };
    let mut table = LinkTable::new(alloc);
    table.add(alloc, Link { number: 7, seat })?;
    let first = table.take(seat);
    assert!(rt; count_of(alloc, &table, 7)? == 0);
    visit(&mut table, alloc, Link { number: 9, seat })?;
    if let Some(link) = first {
        table.put_back(link);
    }
    assert!(rt; key_of(&table, seat) == Some(7));
    assert!(rt; count_of(alloc, &table, 7)? == 1);
    assert!(rt; count_of(alloc, &table, 9)? == 0);
    Ok(())
}
