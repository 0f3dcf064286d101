//! A law of a store that grows: the contract of a function that does nothing.
ghost use Rattle.marc_types.specs.declared.key.Class.{Class};
ghost use Rattle.marc_types.specs.declared.key.Key.{Key};
ghost use Rattle.numbered_store.specs.Numbered.{Grows, Numbered, with_number};

/// A key that gets a number changes no number of another.
#[tactic(auto, using(crate::proofs::Growing::grows_by_a_key))]
pub fn a_new_number_changes_no_other()
    ensures { (class : Class) (key : Key) (s : Numbered) → Grows s (with_number class key s) }
{}
