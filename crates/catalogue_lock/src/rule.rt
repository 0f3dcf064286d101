//! The rule of the lock's table, and what each kind of step tells.
ghost use Rattle.std.specs.Prelude.{List};

use crate::object::Object;
use crate::view::{Terms, View};
use atomic_table::{Join, Play, Seat, Shared, Split, Table, TableRule};
use std::alloc::Global;
use std::marker::{Brand, PhantomData};

/// The first word: the next ticket.
pub(crate) const TICKET: usize = 0;

/// The second word: the ticket that is served.
pub(crate) const SERVING: usize = 1;

/// The third word: how many items the history has.
pub(crate) const COUNT: usize = 2;

/// The one slot, which has the object.
pub(crate) const OBJECT: usize = 0;

pub(crate) struct Law;

impl<O: Object> TableRule<Option<O>, View<O, O::Item>, Terms<O>> for Law {
    ghost use Rattle.catalogue_lock.specs.Rule.{Kept};
    ghost use Rattle.catalogue_lock.specs.Views.{opener};

    ghost holds = { Kept O.history O.origin };

    ghost first = { opener };
}

pub(crate) type LockTable<O> = Table<
    Option<O>,
    View<O, <O as Object>::Item>,
    Terms<O>,
    Law,
    Global,
>;

pub(crate) type Steps<O> = Shared<Option<O>, View<O, <O as Object>::Item>, Terms<O>, Law>;

pub(crate) type Place<O> = Seat<Option<O>, View<O, <O as Object>::Item>>;

/// The items that one turn adds, which each raise picks.
pub(crate) trait Adding<I> {
    ghost added: { List I };
}

impl<I> Adding<I> for Brand {
    ghost use Rattle.std.specs.Prelude.{[]};

    ghost added = { [] };
}

/// Kind 1: a ticket is drawn.
pub(crate) struct Draw;

impl<O, I> Play<Option<O>, View<O, I>> for Draw {
    ghost use Rattle.catalogue_lock.specs.Steps.{Draws};

    ghost then = { Draws };
}

/// Kind 2: a seat that waits looks at the ticket that is served.
pub(crate) struct Look;

impl<O: Object> Play<Option<O>, View<O, O::Item>> for Look {
    ghost use Rattle.catalogue_lock.specs.Steps.{Looks};

    ghost then = { Looks O.history O.origin };
}

/// Kind 2, by a seat with no ticket: what it has seen begins the history.
pub(crate) struct Settle;

impl<O, I> Play<Option<O>, View<O, I>> for Settle {
    ghost use Rattle.catalogue_lock.specs.Steps.{Settles};

    ghost then = { Settles };
}

/// Kind 4: the count grows by the items that the turn added.
pub(crate) struct Raise<D> {
    added: PhantomData<D>,
}

impl<O, I, D: Adding<I>> Play<Option<O>, View<O, I>> for Raise<D> {
    ghost use Rattle.catalogue_lock.specs.Steps.{Raises};

    ghost then = { Raises D.added };
}

/// Kind 6: the next ticket is served.
pub(crate) struct PassOn;

impl<O, I> Play<Option<O>, View<O, I>> for PassOn {
    ghost use Rattle.catalogue_lock.specs.Steps.{PassesOn};

    ghost then = { PassesOn };
}

/// Kind 2 at the opening.
pub(crate) struct BeginOpening;

impl<O, I> Play<Option<O>, View<O, I>> for BeginOpening {
    ghost use Rattle.catalogue_lock.specs.Steps.{BeginsOpening};

    ghost then = { BeginsOpening };
}

/// Kind 4 at the opening: the items that the object brought have no pass number.
pub(crate) struct BringIn<D> {
    added: PhantomData<D>,
}

impl<O, I, D: Adding<I>> Play<Option<O>, View<O, I>> for BringIn<D> {
    ghost use Rattle.catalogue_lock.specs.Steps.{BringsIn};

    ghost then = { BringsIn D.added };
}

/// Kind 6 at the opening, which ends it.
pub(crate) struct EndOpening;

impl<O, I> Play<Option<O>, View<O, I>> for EndOpening {
    ghost use Rattle.catalogue_lock.specs.Steps.{EndsOpening};

    ghost then = { EndsOpening };
}

/// Kind 7 in `new`: the new seat gets the first of the pass numbers.
pub(crate) struct Deal;

impl<O, I> Split<View<O, I>> for Deal {
    ghost use Rattle.catalogue_lock.specs.Views.{without_first, with_first};

    ghost left = { without_first };

    ghost right = { with_first };
}

/// Kind 7 in `meet`: the new seat gets what was seen, and no number.
pub(crate) struct Copy;

impl<O, I> Split<View<O, I>> for Copy {
    ghost use Rattle.catalogue_lock.specs.Views.{copy_of};

    ghost left = { λ v. v };

    ghost right = { copy_of };
}

/// Kind 8: one seat takes in what another has.
pub(crate) struct Glue;

impl<O, I> Join<View<O, I>> for Glue {
    ghost use Rattle.catalogue_lock.specs.Views.{joined, spent};

    ghost both = { joined };

    ghost spent = { spent };
}
