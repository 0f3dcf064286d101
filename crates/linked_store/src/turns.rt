//! A field exchanged with all its rows.
ghost use Rattle.std.specs.Prelude.{◌≡◌, OnOk, IsSome, None, Some};
ghost use Rattle.catalogue_rules.specs.State.{kept_field};
ghost use Rattle.numbered_store.specs.Numbered.{SuitsSeat, field_of};
ghost use Rattle.linked_store.specs.Contents.{ToLink, apply};
ghost use Rattle.linked_store.specs.Transactions.{GoesOn, contents};
ghost use Rattle.linked_store.specs.Holding.{IsAsTold};
ghost use Rattle.linked_store.specs.Turns.{HasRows, IsTurned, IsWaiting, row_lent, without_rows};

use crate::held::RowHeld;
use crate::transaction::Transaction;
use marc_types::{Field, Form, NoMemory, Sequence, Tie};
use numbering::Seat;
use std::alloc::Global;

/// What a seat is to wait for: a form or two, and the keys with these numbers.
#[derive(Drop)]
pub(crate) struct Row {
    pub(crate) form: Form,
    pub(crate) other: Option<Form>,
    pub(crate) keys: Sequence<u32>,
}

/// A row that lends its forms.
#[derive(Drop)]
pub(crate) struct LentRow<'a> {
    pub(crate) form: &'a Form,
    pub(crate) other: Option<&'a Form>,
    pub(crate) keys: Sequence<u32>,
}

impl Transaction {
    /// Exchanges a field, its link, and what it waits for. Where memory ends, the log says how far it came.
    pub(crate) fn relink_field(
        &mut self,
        alloc: Global,
        seat: Seat,
        field: Field,
        tie: Tie,
        link: Option<u32>,
        row: Option<Row>,
    ) -> Result<(), NoMemory>
        requires stands { IsSome (field_of seat self.old.store) }
        requires suits { SuitsSeat seat field self.old.store }
        requires told { IsAsTold seat (contents self.old) }
        ensures now { OnOk result (IsTurned seat (kept_field field tie) link row self.old self.new) }
        ensures goes { GoesOn self.old self.new }
    {
        self.take_rows(seat)?;
        self.put_rows(alloc, seat, link, row)?;
        self.swap(alloc, seat, &field, tie)
    }

    /// Takes the seat's link out, or all that it waits for: what the field there tells.
    pub(crate) fn take_rows(&mut self, seat: Seat) -> Result<(), NoMemory>
        requires { IsAsTold seat (contents self.old) }
        ensures now { OnOk result (contents self.new ≡ without_rows seat (contents self.old)) }
        ensures goes { GoesOn self.old self.new }
        ensures store { self.new.store ≡ self.old.store }
    {
        match self.row_held(seat) {
            RowHeld::Link => self.unlink(seat),
            RowHeld::Waiting => self.unwait(seat),
            RowHeld::Nothing => Ok(()),
        }
    }

    // Links a seat without rows, and lets it wait.
    fn put_rows(
        &mut self,
        alloc: Global,
        seat: Seat,
        link: Option<u32>,
        row: Option<Row>,
    ) -> Result<(), NoMemory>
        requires unlinked { (contents self.old).links seat ≡ None }
        requires unwaiting { (contents self.old).waits seat ≡ None }
        ensures now { OnOk result (HasRows seat link row self.old self.new) }
        ensures goes { GoesOn self.old self.new }
        ensures store { self.new.store ≡ self.old.store }
    {
        self.put_link(alloc, seat, link)?;
        self.put_row(alloc, seat, row)
    }

    fn put_link(&mut self, alloc: Global, seat: Seat, link: Option<u32>) -> Result<(), NoMemory>
        requires { (contents self.old).links seat ≡ None }
        ensures now { OnOk result (contents self.new ≡ apply (ToLink seat link) (contents self.old)) }
        ensures goes { GoesOn self.old self.new }
        ensures store { self.new.store ≡ self.old.store }
    {
        match link {
            Some(number) => self.link(alloc, seat, number),
            None => Ok(()),
        }
    }

    fn put_row(&mut self, alloc: Global, seat: Seat, row: Option<Row>) -> Result<(), NoMemory>
        requires { (contents self.old).waits seat ≡ None }
        ensures now { OnOk result (IsWaiting seat row self.old self.new) }
        ensures goes { GoesOn self.old self.new }
        ensures store { self.new.store ≡ self.old.store }
    {
        let Some(Row { form, other, keys }) = row else {
            return Ok(());
        };
        self.wait(alloc, seat, &form, other.as_ref(), keys)
    }

    /// Lets a seat that waits for nothing wait for what a row says.
    pub(crate) fn put_lent(
        &mut self,
        alloc: Global,
        seat: Seat,
        row: LentRow<'_>,
    ) -> Result<(), NoMemory>
        requires { (contents self.old).waits seat ≡ None }
        ensures now { OnOk result (IsWaiting seat (Some (row_lent row.entry)) self.old self.new) }
        ensures goes { GoesOn self.old self.new }
        ensures store { self.new.store ≡ self.old.store }
    {
        let LentRow { form, other, keys } = row;
        self.wait(alloc, seat, form, other, keys)
    }
}
