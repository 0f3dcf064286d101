//! Laws of states that are handed over as rows: each is the contract of a function that does nothing.
ghost use Rattle.std.specs.Prelude.{◌≡◌, ◌↔◌, ◌++◌, true, List};
ghost use Rattle.marc_types.specs.declared.key.Class.{Class};
ghost use Rattle.marc_types.specs.declared.key.Class.TheVariants.{Authority, Bibliographic};
ghost use Rattle.catalogue_rules.specs.State.{State};
ghost use Rattle.catalogue_rules.specs.Valid.{IsAscending};
ghost use Rattle.kept_rows.specs.declared.row.KeptRow.{KeptRow};
ghost use Rattle.kept_rows.specs.Rows.{are_in_order, rows_in};
ghost use Rattle.kept_rows.specs.Standing.{IsStanding, IsSound};
ghost use Rattle.kept_rows.specs.Ascending.{AscendIn};

/// A catalogue can begin with a state exactly where its rows are in order, each is sound alone, and each field rests among the
/// authorities. That the headings of authorities are short needs no look: an authority that fields are linked to is short in full.
#[tactic(auto, using(crate::proofs::Sounds::sound_stands, crate::proofs::Sounds::standing_is_sound))]
pub fn a_state_stands_where_its_rows_are_sound()
    ensures { (s : State) → IsStanding s ↔ IsSound s }
{}

/// The keys of each class ascend where rows are in order.
#[tactic(auto, using(crate::proofs::Classes::ordered_ascend))]
pub fn rows_in_order_ascend()
    ensures { (class : Class) (rows : List KeptRow) → are_in_order rows ≡ true → IsAscending (rows_in class rows) }
{}

/// Authorities whose keys ascend, and publications whose keys ascend behind them, are rows in order.
pub fn ascending_rows_are_in_order()
    ensures { (former latter : List KeptRow) → AscendIn Authority former → AscendIn Bibliographic latter
        → are_in_order (former ++ latter) ≡ true }
{}
