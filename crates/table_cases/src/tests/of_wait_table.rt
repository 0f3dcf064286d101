ghost use Rattle.std.specs.Prelude.{◌≡◌, OnOk, None};
ghost use Rattle.wait_table.specs.Table.{waits};

use marc_types::{Class, NoMemory, Sequence};
use numbering::Seat;
use std::alloc::Global;
use std::test::Fail;
use wait_table::{Asked, KeyNumbers, WaitRow, WaitTable, Waiting};

// A row that comes and goes leaves the table as it was, also where another row of the seat is taken.
fn visit(table: &mut WaitTable, alloc: Global, row: WaitRow) -> Result<(), NoMemory>
    requires { (waits table.old).waiting row.seat ≡ None }
    ensures { OnOk result (waits table.new ≡ waits table.old) }
{
    let seat = row.seat;
    table.add(alloc, row)?;
    if let Some(taken) = table.take(seat) {
        table.let_go(taken);
    }
    Ok(())
}

// What a look-up answers a test's proof needn't know.
fn count_by_form(alloc: Global, table: &WaitTable, form: u32) -> Result<usize, NoMemory> {
    Ok(table.by_form(alloc, form)?.len())
}

fn count_by_key(alloc: Global, table: &WaitTable, key: u32) -> Result<usize, NoMemory> {
    Ok(table.by_key(alloc, key)?.len())
}

#[test]
fn a_row_comes_back_after_another(rt: HostRuntime) -> Result<(), Fail> {
    let alloc = rt.alloc();
    let seat = Seat {
        class: Class::Bibliographic,
        number: 4,
        field: 2,
    };
    let waiting = Waiting {
        forms: Asked::Two(1, 2),
        keys: KeyNumbers::new(alloc, Sequence::from_vec(vec![in alloc; 5, 6, 7]?))?,
    };
    let other = Waiting {
        forms: Asked::One(3),
        keys: KeyNumbers::none(),
    };
    let mut table = WaitTable::new(alloc);
    table.add(alloc, WaitRow { seat, waiting })?;
    assert!(rt; count_by_form(alloc, &table, 2)? == 1);
    let first = table.take(seat);
    assert!(rt; count_by_key(alloc, &table, 6)? == 0);
    visit(
        &mut table,
        alloc,
        WaitRow {
            seat,
            waiting: other,
        },
    )?;
    if let Some(row) = first {
        table.put_back(row);
    }
    assert!(rt; count_by_form(alloc, &table, 1)? == 1);
    assert!(rt; count_by_key(alloc, &table, 7)? == 1);
    assert!(rt; count_by_form(alloc, &table, 3)? == 0);
    Ok(())
}
