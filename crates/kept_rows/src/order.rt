//! The order of rows.
ghost use Rattle.std.specs.Prelude.{◌≡◌};
ghost use Rattle.std.specs.Ordering.{is_lt};
ghost use Rattle.marc_types.specs.Order.{class_rank};
ghost use Rattle.kept_rows.specs.Rows.{row_cmp, are_in_order};

use crate::row::KeptRow;
use marc_types::Class;

/// The place of a class in the order of rows.
fn rank(class: Class) -> u8
    ensures { result ≡ class_rank class }
{
    match class {
        Class::Authority => 0,
        Class::Bibliographic => 1,
    }
}

#[tactic(auto, unfolding(crate::specs::Rows::row_cmp))]
fn stands_before(row: &KeptRow, next: &KeptRow) -> bool
    ensures { result ≡ is_lt (row_cmp row.now next.now) }
{
    rank(row.class)
        .cmp(&rank(next.class))
        .then_with(|| row.key.cmp(&next.key))
        .is_lt()
}

/// Whether authorities stand first, and in each class the keys ascend.
pub fn are_in_order(rows: &[KeptRow]) -> bool
    ensures { result ≡ are_in_order rows.now }
{
    for place in 1..rows.len() {
        if !stands_before(&rows[place - 1], &rows[place]) {
            return false;
        }
    }
    true
}
