//! The first of rows that are given in any order.
ghost use Rattle.std.specs.Prelude.{◌≡◌, ◌+◌, ◌≤◌, [], ◌∷◌, length, take, OnOk};
ghost use Rattle.heading_list.specs.Collecting.{HasFirst, Takes};
ghost use Rattle.heading_list.specs.Rows.{is_wanted};

use crate::row::ListRow;
use marc_types::{Form, NoMemory};
use std::alloc::Global;
use std::collections::BTreeSet;

/// The first of the rows that it was given, in order: so many of those that are wanted from a form on.
#[derive(Drop)]
pub(crate) struct FirstRows {
    pub(crate) from: Form,
    pub(crate) most: u64,
    pub(crate) rows: BTreeSet<ListRow>,
}

/// Takes the last row out where there is one more than so many.
fn trim(rows: &mut BTreeSet<ListRow>, most: u64)
    ensures { length rows.old.keys ≤ most + 1 → rows.new.keys ≡ take most rows.old.keys }
{
    if rows.len() as u64 > most {
        rows.pop_last();
    }
}

impl FirstRows {
    /// No row was given.
    #[tactic(auto, unfolding(crate::specs::Rows::first_of, crate::specs::Rows::in_order))]
    pub(crate) fn new(alloc: Global, from: Form, most: u64) -> FirstRows
        ensures { HasFirst from most [] result }
    {
        FirstRows {
            from,
            most,
            rows: BTreeSet::new(alloc),
        }
    }

    /// Whether a row is of the form's kind, and its own form isn't before that form.
    fn is_wanted(&self, row: &ListRow) -> bool
        ensures { result ≡ is_wanted self.now.from row.now }
    {
        self.from.kind == row.form.kind && !row.form.cmp(&self.from).is_lt()
    }

    /// Takes a row. What then is behind the last place goes.
    pub(crate) fn put(&mut self, row: ListRow) -> Result<(), NoMemory>
        ensures { OnOk result (Takes self.old self.new (row ∷ [])) }
    {
        if !self.is_wanted(&row) {
            return Ok(());
        }
        self.rows.insert(row)?;
        trim(&mut self.rows, self.most);
        Ok(())
    }
}
