//! What stands in each of the two copies, and what changes it.
ghost use Rattle.std.specs.Prelude.{◌≡◌, IsTrue};
ghost use Rattle.heading_rows.specs.Listing.{table_of};

use crate::book::{Front, Naming};
use heading_rows::{Heading, Table};
use left_right::Absorb;
use marc_types::Entry;
use std::alloc::{AllocError, Global};
use std::marker::Model;

/// A table, beside the front whose entries it has taken. Contracts see it as that front.
#[derive(Drop)]
pub struct Board<J: Naming> {
    alloc: Global,
    table: Table,
    front: Front<J>,
}

impl<J: Naming> Model for Board<J> {
    ghost use Rattle.std.specs.Prelude.{◌≡◌, List};
    ghost use Rattle.marc_types.specs.declared.entry.Entry.{Entry};
    ghost use Rattle.heading_rows.specs.Listing.{table_of};

    ghost Value = { List Entry };

    ghost view = { λ b. b.front };

    ghost invariant = { λ b. b.table ≡ table_of b.front };
}

/// An entry that was added, beside the fronts before and after it. Contracts see it as the front after it.
#[derive(Drop)]
pub struct Addition<J: Naming> {
    pub(crate) heading: Heading,
    pub(crate) before: Front<J>,
    pub(crate) after: Front<J>,
}

impl<J: Naming> Model for Addition<J> {
    ghost use Rattle.std.specs.Prelude.{◌≡◌, ◌++◌, ◌∷◌, [], List};
    ghost use Rattle.marc_types.specs.declared.entry.Entry.{Entry};

    ghost Value = { List Entry };

    ghost view = { λ a. a.after };

    ghost invariant = { λ a. a.after ≡ a.before ++ a.heading ∷ [] };
}

impl<J: Naming> Board<J> {
    pub(crate) fn new(alloc: Global, table: Table, front: Front<J>) -> Board<J>
        requires { table ≡ table_of front }
        ensures { result ≡ front }
    {
        Board {
            alloc,
            table,
            front,
        }
    }

    pub(crate) fn table(&self) -> &Table
        ensures { result.now ≡ table_of self.now }
    {
        &self.table
    }

    pub(crate) fn front(&self) -> &Front<J>
        ensures { result.now ≡ self.now }
    {
        &self.front
    }
}

impl<J: Naming> Absorb<Addition<J>> for Board<J> {
    type State = [Entry; 0];

    ghost state = { λ b. b };

    ghost applied = { λ entries addition. addition };

    #[tactic(auto, using(crate::proofs::Taken::table_more))]
    fn absorb_first(
        &mut self,
        operation: &Addition<J>,
        _other: &Board<J>,
    ) -> Result<(), AllocError> {
        if !self.front.equals(&operation.before) {
            return Err(AllocError);
        }
        self.table
            .put(self.alloc, &operation.heading)
            .map_err(|_| AllocError)?;
        self.front = operation.after.again();
        Ok(())
    }
}
