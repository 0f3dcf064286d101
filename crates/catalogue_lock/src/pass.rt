//! The passes of a lock.
ghost use Rattle.std.specs.Prelude.{◌≡◌, length};
ghost use Rattle.catalogue_lock.specs.Views.{pass_of, IsAtRest};

use crate::object::Object;
use crate::rule::Place;
use std::marker::Model;

/// The right of one caller to take turns at a lock, and what that caller has seen of its history. It has no bytes.
pub struct Pass<O: Object> {
    pub(crate) seat: Place<O>,
}

impl<O: Object> Model for Pass<O> {
    ghost use Rattle.catalogue_lock.specs.Passes.{Pass as PassFacts};

    ghost Value = { PassFacts O O.Item };

    ghost use Rattle.catalogue_lock.specs.Views.{pass_of, IsAtRest};

    ghost view = { λ p. pass_of p.seat };

    ghost invariant = { λ p. IsAtRest p.seat.me };
}

impl<O: Object> Pass<O> {
    pub(crate) fn into_seat(self) -> Place<O>
        ensures seat { pass_of result ≡ self }
        ensures rest { IsAtRest result.me }
    {
        let Self { seat } = self;
        seat
    }
}

impl<O: Object> Drop for Pass<O> {
    fn drop(self) {
        let Self { seat: _ } = self;
    }
}

/// A list of passes. Contracts see it as one.
#[derive(Drop)]
pub struct Passes<O: Object> {
    items: Vec<Pass<O>>,
}

impl<O: Object> Model for Passes<O> {
    ghost use Rattle.std.specs.Prelude.{List};
    ghost use Rattle.catalogue_lock.specs.Passes.{Pass as PassFacts};

    ghost Value = { List (PassFacts O O.Item) };

    ghost view = { λ p. p.items.items };
}

impl<O: Object> Passes<O> {
    /// The list of these passes.
    pub fn from_vec(items: Vec<Pass<O>>) -> Passes<O>
        ensures { result ≡ items.items }
    {
        Passes { items }
    }

    /// Gives the passes back.
    pub fn into_vec(self) -> Vec<Pass<O>>
        ensures { result.items ≡ self }
    {
        self.items
    }

    /// The number of passes.
    pub fn len(&self) -> usize
        ensures { result ≡ length self.now }
    {
        self.items.len()
    }
}
