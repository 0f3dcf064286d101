//! Laws of the catalogue's rules: each is the contract of a function that does nothing.
ghost use Rattle.std.specs.Prelude.{◌≡◌, true, false, List, [], ◌∷◌, map, All, codes};
ghost use Rattle.marc_types.specs.declared.key.Class.{Class};
ghost use Rattle.marc_types.specs.declared.key.Class.TheVariants.{Bibliographic};
ghost use Rattle.marc_types.specs.declared.form.Kind.TheVariants.{Personal, Topical};
ghost use Rattle.entry_record.specs.Authority.{base_form, full_form};
ghost use Rattle.catalogue_rules.specs.State.{State, fields_of, new_field, rows_of};
ghost use Rattle.catalogue_rules.specs.Choice.{choice, Link, Ambiguous};
ghost use Rattle.catalogue_rules.specs.Worked.{dlc_key, item, twain, doe, women_history, women, numbered, clemens, shouted_doe, french_women, name_form, topic_form};
ghost use Rattle.iso2709_record.specs.Written.{fits};
ghost use Rattle.catalogue_rules.specs.Settle.{Arrival, settle, state_after, state_of};
ghost use Rattle.catalogue_rules.specs.Committed.{committed_after, plain_of_committed, plain_of_kept};
ghost use Rattle.entry_record.specs.History.{IsAdmitted};
ghost use Rattle.catalogue_rules.specs.Valid.{IsReadyToSettle, IsValid, EachRow};

use marc_types::Entry;

/// Settling a catalogue twice is settling it once.
#[tactic(auto, using(crate::proofs::Once::settle_twice))]
pub fn settling_twice_is_settling_once()
    ensures { (s : State) → IsReadyToSettle s → settle (settle s) ≡ settle s }
{}

/// Whatever was admitted, in whatever order, the catalogue's state is valid.
pub fn every_state_is_valid(history: &[Entry])
    requires { All IsAdmitted history.now }
    ensures { IsValid (state_of history.now) }
{}

/// Every record of a valid state fits into its written form.
#[tactic(auto, using(crate::proofs::Fitting::valid_fits))]
pub fn every_kept_record_fits()
    ensures { (s : State) → IsValid s → EachRow (λ class row. fits (fields_of row.1) ≡ true) s }
{}

/// Settling a valid state changes nothing: each linked field is rewritten already, and no unlinked one has a link to choose.
#[tactic(auto, using(crate::proofs::Still::valid_settled))]
pub fn settling_leaves_a_valid_state()
    ensures { (s : State) → IsValid s → settle s ≡ s }
{}

/// Whatever was committed, in whatever order: of the kept records all fields that are no headings stand as they came in. So
/// what is due of such fields alone can be told of what was committed, with no link made.
#[tactic(auto, using(crate::proofs::Kept::kept_as_committed))]
pub fn other_fields_stay_as_committed()
    ensures { (class : Class) (history : List Arrival) →
        map (plain_of_kept class) (rows_of class (state_after history)) ≡ map (plain_of_committed class) (committed_after class history) }
{}

/// A worked case: `700 1_ $aTwayne, M.$0(DLC)n 79021164` is linked to the authority of that number, whatever its name.
#[tactic(auto, using(crate::proofs::Worked::chosen_by_number))]
pub fn a_choice_by_number()
    ensures { choice (doe (codes "n3") ∷ twain ∷ []) Bibliographic Personal (new_field numbered) ≡ Link twain false }
{}

/// A worked case: `700 1_ $aClemens, Samuel` is linked to the authority that is also found under that form.
#[tactic(auto, using(crate::proofs::Worked::chosen_by_see_from))]
pub fn a_choice_by_a_see_from_form()
    ensures { base_form Personal clemens ≡ name_form (codes "clemens, samuel")
        → choice (doe (codes "n3") ∷ twain ∷ []) Bibliographic Personal (new_field clemens) ≡ Link twain false }
{}

/// A worked case: `700 1_ $aDOE, JANE` is ambiguous between two authorities of that form.
#[tactic(auto, using(crate::proofs::Worked::chosen_of_two))]
pub fn an_ambiguous_choice()
    ensures { base_form Personal shouted_doe ≡ name_form (codes "doe, jane")
        → choice (doe (codes "n3") ∷ twain ∷ doe (codes "n9") ∷ []) Bibliographic Personal (new_field shouted_doe)
        ≡ Ambiguous (dlc_key (codes "n3") ∷ dlc_key (codes "n9") ∷ []) }
{}

/// A worked case: `650 _0 $aWOMEN$zFrance` is linked by its base, since no heading has its full form.
#[tactic(auto, using(crate::proofs::Worked::chosen_by_base))]
pub fn a_choice_by_the_base()
    ensures { full_form Topical Bibliographic french_women ≡ topic_form (item 97 (codes "women") ∷ item 122 (codes "france") ∷ [])
        → base_form Topical french_women ≡ topic_form (item 97 (codes "women") ∷ [])
        → choice (women_history ∷ women ∷ []) Bibliographic Topical (new_field french_women) ≡ Link women false }
{}
