//! A row that a table has under its key and in its place in the order, and that the copies of a table share.
ghost use Rattle.std.specs.Prelude.{◌≡◌, IfOk};
ghost use Rattle.heading_rows.specs.Rows.{browse_row};

use crate::row::BrowseRow;
use marc_types::{Form, Key, NoMemory, TryCopy};
use std::alloc::Global;
use std::cmp::Ordering;
use std::marker::Model;
use std::sync::Arc;

/// A row that stands once in memory, however many have it. Rows are ordered by the form, and then by the key.
#[derive(Drop)]
pub(crate) struct SharedRow {
    row: Arc<BrowseRow, Global>,
}

impl Model for SharedRow {
    ghost use Rattle.heading_rows.specs.declared.row.BrowseRow.{BrowseRow};

    ghost Value = { BrowseRow };

    ghost view = { λ r. r.row.value };
}

impl SharedRow {
    pub(crate) fn of(alloc: Global, form: &Form, key: &Key) -> Result<SharedRow, NoMemory>
        ensures { IfOk result (λ made. made ≡ browse_row form.now key.now) }
    {
        let row = BrowseRow {
            form: form.copy(alloc)?,
            key: key.copy(alloc)?,
        };
        Ok(SharedRow {
            row: Arc::new(alloc, row)?,
        })
    }

    /// The same row, for one more owner. It takes no memory; there is a greatest number of owners.
    pub(crate) fn again(&self) -> Result<SharedRow, NoMemory>
        ensures { IfOk result (λ twin. twin ≡ self.now) }
    {
        Ok(SharedRow {
            row: Arc::try_clone(&self.row)?,
        })
    }

    /// The row as one of its own.
    pub(crate) fn unpacked(&self, alloc: Global) -> Result<BrowseRow, NoMemory>
        ensures { IfOk result (λ row. row ≡ self.now) }
    {
        self.row.copy(alloc)
    }
}

impl PartialEq for SharedRow {
    ghost use Rattle.heading_rows.specs.Rows.{row_cmp, row_cmp_total};
    ghost use Rattle.std.specs.Ordering.{eq_by_cmp};
    ghost use Rattle.std.specs.Cmp.{eq_by_cmp_equiv, partial_equiv_from_equiv};

    ghost eq = { eq_by_cmp row_cmp };

    ghost laws = { partial_equiv_from_equiv (eq_by_cmp_equiv row_cmp_total) };

    fn eq(&self, other: &Self) -> bool {
        self.cmp(other).is_eq()
    }
}

impl Eq for SharedRow {
    ghost use Rattle.heading_rows.specs.Rows.{row_cmp_total};
    ghost use Rattle.std.specs.Cmp.{eq_by_cmp_equiv};

    ghost laws = { eq_by_cmp_equiv row_cmp_total };
}

impl PartialOrd for SharedRow {
    ghost use Rattle.heading_rows.specs.Rows.{row_cmp, row_cmp_total};
    ghost use Rattle.std.specs.Ordering.{as_partial_cmp};
    ghost use Rattle.std.specs.Cmp.{partial_order_from_total};

    ghost partial_cmp = { as_partial_cmp row_cmp };

    ghost laws = { partial_order_from_total row_cmp_total };

    fn partial_cmp(&self, other: &Self) -> Option<Ordering> {
        Some(self.cmp(other))
    }
}

impl Ord for SharedRow {
    ghost use Rattle.heading_rows.specs.Rows.{row_cmp, row_cmp_total};
    ghost use Rattle.std.proofs.Common.{refl};

    ghost cmp = { row_cmp };

    ghost total = { row_cmp_total };

    ghost matches_partial_cmp = { λ x y. refl };

    ghost matches_eq = { λ x y. refl };

    #[tactic(auto, unfolding(crate::specs::Rows::row_cmp))]
    fn cmp(&self, other: &Self) -> Ordering {
        self.row
            .form
            .cmp(&other.row.form)
            .then_with(|| self.row.key.cmp(&other.row.key))
    }
}
