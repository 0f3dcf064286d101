//! The rows of one seat, which go out of the tables and come back.
ghost use Rattle.std.specs.Prelude.{◌≡◌, None};
ghost use Rattle.catalogue_tables.specs.Tables.{OnlyLinks, OnlyWaits};
ghost use Rattle.link_table.specs.Links.{with_key};
ghost use Rattle.wait_table.specs.Waits.{with_waiting};
ghost use Rattle.linked_store.specs.Transactions.{links_in, waits_in};
ghost use Rattle.linked_store.specs.Rooms.{IsOut, IsWaitOut, link_back, link_gone, link_out, wait_back, wait_gone, wait_out};

use catalogue_tables::CatalogueTables;
use link_table::Link;
use numbering::Seat;
use wait_table::{WaitRow, Waiting};

/// Takes the seat's link out, and gives the number of its authority.
pub(crate) fn take_link(tables: &mut CatalogueTables, seat: Seat) -> Option<u32>
    ensures before { result ≡ (links_in tables.old).key_of seat }
    ensures now { links_in tables.new ≡ link_out seat ((links_in tables.old).key_of seat) (links_in tables.old) }
    ensures only { OnlyLinks tables.old tables.new }
{
    let Some(link) = tables.take_link(seat) else {
        return None;
    };
    Some(link.number)
}

/// Takes all that the seat waits for out.
pub(crate) fn take_waiting(tables: &mut CatalogueTables, seat: Seat) -> Option<Waiting>
    ensures before { result ≡ (waits_in tables.old).waiting seat }
    ensures now { waits_in tables.new ≡ wait_out seat ((waits_in tables.old).waiting seat) (waits_in tables.old) }
    ensures only { OnlyWaits tables.old tables.new }
{
    let Some(row) = tables.take_waiting(seat) else {
        return None;
    };
    let WaitRow { waiting, .. } = row;
    Some(waiting)
}

// Takes the seat's link out for good.
fn drop_link(tables: &mut CatalogueTables, seat: Seat)
    ensures now { links_in tables.new ≡ with_key seat None (links_in tables.old) }
    ensures only { OnlyLinks tables.old tables.new }
{
    let Some(link) = tables.take_link(seat) else {
        return;
    };
    tables.let_link_go(link);
}

// Puts a link back that was taken out, if there was one.
fn return_link(tables: &mut CatalogueTables, seat: Seat, before: Option<u32>)
    requires free { (links_in tables.old).key_of seat ≡ None }
    requires out { IsOut seat before (links_in tables.old) }
    ensures now { links_in tables.new ≡ link_back seat before (links_in tables.old) }
    ensures only { OnlyLinks tables.old tables.new }
{
    let Some(number) = before else {
        return;
    };
    tables.put_link_back(Link { number, seat });
}

/// Puts the seat's link back to what it was.
pub(crate) fn relink(tables: &mut CatalogueTables, seat: Seat, before: Option<u32>)
    requires { IsOut seat before (links_in tables.old) }
    ensures now { links_in tables.new ≡ link_back seat before (with_key seat None (links_in tables.old)) }
    ensures only { OnlyLinks tables.old tables.new }
{
    drop_link(tables, seat);
    return_link(tables, seat, before);
}

// Takes all that the seat waits for out for good.
fn drop_waiting(tables: &mut CatalogueTables, seat: Seat)
    ensures now { waits_in tables.new ≡ with_waiting seat None (waits_in tables.old) }
    ensures only { OnlyWaits tables.old tables.new }
{
    let Some(row) = tables.take_waiting(seat) else {
        return;
    };
    tables.let_waiting_go(row);
}

// Puts a row back that was taken out, if there was one.
fn return_waiting(tables: &mut CatalogueTables, seat: Seat, before: Option<Waiting>)
    requires free { (waits_in tables.old).waiting seat ≡ None }
    requires out { IsWaitOut seat before (waits_in tables.old) }
    ensures now { waits_in tables.new ≡ wait_back seat before (waits_in tables.old) }
    ensures only { OnlyWaits tables.old tables.new }
{
    let Some(waiting) = before else {
        return;
    };
    tables.put_waiting_back(WaitRow { seat, waiting });
}

/// Puts all that the seat waits for back to what it was.
pub(crate) fn wait_again(tables: &mut CatalogueTables, seat: Seat, before: Option<Waiting>)
    requires { IsWaitOut seat before (waits_in tables.old) }
    ensures now { waits_in tables.new ≡ wait_back seat before (with_waiting seat None (waits_in tables.old)) }
    ensures only { OnlyWaits tables.old tables.new }
{
    drop_waiting(tables, seat);
    return_waiting(tables, seat, before);
}

/// Lets a link go that was taken out, if there was one.
pub(crate) fn forget_link(tables: &mut CatalogueTables, seat: Seat, before: Option<u32>)
    requires { IsOut seat before (links_in tables.old) }
    ensures now { links_in tables.new ≡ link_gone seat before (links_in tables.old) }
    ensures only { OnlyLinks tables.old tables.new }
{
    let Some(number) = before else {
        return;
    };
    tables.let_link_go(Link { number, seat });
}

/// Lets a row go that was taken out, if there was one.
pub(crate) fn forget_waiting(tables: &mut CatalogueTables, seat: Seat, before: Option<Waiting>)
    requires { IsWaitOut seat before (waits_in tables.old) }
    ensures now { waits_in tables.new ≡ wait_gone seat before (waits_in tables.old) }
    ensures only { OnlyWaits tables.old tables.new }
{
    let Some(waiting) = before else {
        return;
    };
    tables.let_waiting_go(WaitRow { seat, waiting });
}
