//! Laws of the index: each is the contract of a function that does nothing.
ghost use Rattle.std.specs.Prelude.{List};
ghost use Rattle.std.specs.List.{IsDistinct};
ghost use Rattle.std.specs.Ordering.{eq_by_cmp};
ghost use Rattle.marc_types.specs.Order.{key_cmp};
ghost use Rattle.numbering.specs.Numbers.{Keeps};
ghost use Rattle.form_index.specs.Index.{Indexed, IsInOrder, Taken};
ghost use Rattle.form_index.specs.Laws.{ComesBack};

use crate::FormIndex;
use marc_types::Key;
use numbering::Numbering;

/// An index in the order of some keys is in the order of all keys that were numbered since.
pub fn order_stays(index: &FormIndex, keys: &Numbering<Key>)
    ghost before: { List Key }
    requires keeps { Keeps (eq_by_cmp key_cmp) before keys.now }
    requires distinct { IsDistinct (eq_by_cmp key_cmp) before }
    requires ordered { IsInOrder before index.now }
    ensures { IsInOrder keys.now index.now }
{}

/// A row that was taken comes back to the same places, also when keys were numbered since.
#[tactic(auto, using(crate::proofs::Growing::put_back_kept))]
pub fn a_row_comes_back_to_its_places()
    ensures { (before now : List Key) (row : Taken) (x : Indexed) → ComesBack before now row x }
{}
