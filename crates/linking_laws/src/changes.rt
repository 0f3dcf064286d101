//! Laws of what a commit changes in records other than its own.
ghost use Rattle.std.specs.Prelude.{◌≡◌, true, false};
ghost use Rattle.marc_types.specs.declared.key.Class.TheVariants.{Authority, Bibliographic};
ghost use Rattle.marc_types.specs.declared.key.Place.{Place};
ghost use Rattle.catalogue_rules.specs.State.{State};
ghost use Rattle.linking_laws.specs.Changes.{IsLeftByStages, is_changed_by_stages, is_exchanged_at};
ghost use Rattle.linking_laws.specs.Commits.{field_staged};
ghost use Rattle.linking_laws.specs.Receipts.{IsExchanged};
ghost use Rattle.linking_laws.specs.Laws.{OfOtherPlaces, OfSoundFields, is_exchanged_by};

/// No stage of an authority's commit takes back what another one changed: a field that ends as it was is left by each of them.
pub fn no_stage_takes_back_a_change()
    ensures { OfSoundFields (λ s e class h. field_staged s e class h ≡ h → IsLeftByStages s e class h) }
{}

/// At a place of another record an authority's commit exchanges the field exactly where one of its stages makes another of it.
#[tactic(auto, using(crate::proofs::Exchanged::exchanged_by_stages))]
pub fn a_commit_exchanges_what_its_stages_change()
    ensures { OfOtherPlaces Authority (λ s e p. is_exchanged_by s e p ≡ is_changed_by_stages s e p) }
{}

/// A bibliographic commit exchanges no field of another record.
#[tactic(auto, using(crate::proofs::Exchanged::nothing_exchanged))]
pub fn a_bibliographic_commit_exchanges_no_other_field()
    ensures { OfOtherPlaces Bibliographic (λ s e p. is_exchanged_by s e p ≡ false) }
{}

/// The test of a place tells exactly whether its field is exchanged.
pub fn the_test_of_a_place_tells_of_an_exchange()
    ensures told { (p : Place) (before now : State) → is_exchanged_at before now p ≡ true → IsExchanged p before now }
    ensures tells { (p : Place) (before now : State) → IsExchanged p before now → is_exchanged_at before now p ≡ true }
{}
