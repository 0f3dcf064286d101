//! The way back: the last changes are taken back, or let go, one by one and without memory.
ghost use Rattle.std.specs.Prelude.{◌≡◌, ◌≤◌, ◌++◌, ◌∷◌, [], length, IfSome, IfNone};
ghost use Rattle.std.specs.Option.{option_map};
ghost use Rattle.numbered_store.specs.Kept.{kept_record};
ghost use Rattle.numbered_store.specs.Numbered.{IsNumber};
ghost use Rattle.linked_store.specs.Contents.{CanGoBack, Fits, ToIndex, ToLink, ToRecord, ToWait, step_of};
ghost use Rattle.linked_store.specs.Transactions.{GoesBack, IsInSomeOrder, IsKept, IsRoomy, IsRowOut, KeepsRows, LetsGo, TakesBack, contents, links_in, steps_of, waits_in};
ghost use Rattle.linked_store.specs.Rooms.{IsOut, IsWaitOut};

use crate::change::Change;
use crate::rows::{forget_link, forget_waiting, relink, wait_again};
use crate::transaction::Transaction;
use catalogue_tables::CatalogueTables;
use form_index::FormRow;
use marc_types::Class;
use numbered_store::StoredRecord;
use numbering::Seat;
use wait_table::Waiting;

/// Takes back all changes behind a position of the log.
pub(crate) fn go_back(transaction: &mut Transaction, position: usize)
    requires can { CanGoBack (steps_of transaction.old) (contents transaction.old) }
    requires rooms { IsRoomy transaction.old }
    ensures { GoesBack position transaction.old transaction.new }
{
    while let Some(change) = pop_above(&mut transaction.log, position) {
        undo(transaction, change);
    }
}

/// Lets all changes go: there is no way back from here.
pub(crate) fn keep_all(transaction: &mut Transaction)
    requires rooms { IsRoomy transaction.old }
    requires order { IsInSomeOrder transaction.old.tables.index }
    ensures { IsKept transaction.old transaction.new }
{
    while let Some(change) = transaction.log.pop() {
        forget(&mut transaction.tables, change);
    }
}

// The last change, where it stands behind the position.
fn pop_above(log: &mut Vec<Change>, position: usize) -> Option<Change>
    ensures some { IfSome result (λ change. log.old.items ≡ log.new.items ++ change ∷ []) }
    ensures above { IfSome result (λ change. position ≤ length log.new.items) }
    ensures none { IfNone result (log.new.items ≡ log.old.items) }
    ensures low { IfNone result (length log.old.items ≤ position) }
{
    if log.len() > position {
        log.pop()
    } else {
        None
    }
}

fn undo(transaction: &mut Transaction, change: Change)
    requires fits { Fits (step_of change) (contents transaction.old) }
    requires out { IsRowOut (step_of change) transaction.old.tables }
    ensures { TakesBack (step_of change) transaction.old transaction.new }
{
    match change {
        Change::Exchanged {
            class,
            number,
            before,
        } => exchange_back(transaction, class, number, before),
        Change::Followed { number, before } => index_back(transaction, number, before),
        Change::Relinked { seat, before } => link_back(transaction, seat, before),
        Change::Awaited { seat, before } => wait_back(transaction, seat, before),
    }
}

fn exchange_back(
    transaction: &mut Transaction,
    class: Class,
    number: u32,
    before: Option<StoredRecord>,
)
    requires { IsNumber class number transaction.old.store }
    ensures { TakesBack (ToRecord class number (option_map kept_record before)) transaction.old transaction.new }
{
    let _after = transaction.store.exchange(class, number, before);
}

fn index_back(transaction: &mut Transaction, number: u32, before: Option<FormRow>)
    requires { Fits (ToIndex number before) (contents transaction.old) }
    ensures { TakesBack (ToIndex number before) transaction.old transaction.new }
{
    let keys = transaction.store.keys(Class::Authority);
    transaction.tables.restore_authority(keys, number, before);
}

fn link_back(transaction: &mut Transaction, seat: Seat, before: Option<u32>)
    requires { IsOut seat before (links_in transaction.old.tables) }
    ensures { TakesBack (ToLink seat before) transaction.old transaction.new }
{
    relink(&mut transaction.tables, seat, before);
}

fn wait_back(transaction: &mut Transaction, seat: Seat, before: Option<Waiting>)
    requires { IsWaitOut seat before (waits_in transaction.old.tables) }
    ensures { TakesBack (ToWait seat before) transaction.old transaction.new }
{
    wait_again(&mut transaction.tables, seat, before);
}

// Gives back the places that the index holds for the row.
fn forget_row(tables: &mut CatalogueTables, before: Option<FormRow>)
    requires { IsInSomeOrder tables.old.index }
    ensures rows { KeepsRows tables.old.index tables.new.index }
    ensures forms { tables.new.forms ≡ tables.old.forms }
    ensures links { tables.new.links ≡ tables.old.links }
    ensures waits { tables.new.waits ≡ tables.old.waits }
{
    let Some(row) = before else {
        return;
    };
    tables.let_authority_go(row);
}

// Gives back the room for what stood there before.
fn forget(tables: &mut CatalogueTables, change: Change)
    requires out { IsRowOut (step_of change) tables.old }
    requires order { IsInSomeOrder tables.old.index }
    ensures { LetsGo (step_of change) tables.old tables.new }
{
    match change {
        Change::Exchanged { .. } => {}
        Change::Followed { before, .. } => forget_row(tables, before),
        Change::Relinked { seat, before } => forget_link(tables, seat, before),
        Change::Awaited { seat, before } => forget_waiting(tables, seat, before),
    }
}
