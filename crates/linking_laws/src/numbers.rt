//! Laws of the visits of a commit, and of its receipt.
ghost use Rattle.std.specs.Prelude.{◌≡◌, ℕ, ◌≤◌, List, true};
ghost use Rattle.marc_types.specs.declared.key.Class.{Class};
ghost use Rattle.marc_types.specs.declared.key.Class.TheVariants.{Authority, Bibliographic};
ghost use Rattle.marc_types.specs.declared.entry.Entry.{Entry};
ghost use Rattle.catalogue_rules.specs.State.{State};
ghost use Rattle.linking_laws.specs.Receipts.{AreOwnCounts, receipt_by};
ghost use Rattle.linking_laws.specs.Visits.{commit_visits, commit_weight, own_commit_visits, touched, touched_by, visits_in};
ghost use Rattle.linking_laws.specs.Worked.{arrived, awaiting_state, brought, deleted, linked_state, plain_name, replaced};
ghost use Rattle.catalogue_rules.specs.Worked.{numbered};
ghost use Rattle.entry_record.specs.Authority.{has_form};
ghost use Rattle.marc_types.specs.declared.form.Kind.TheVariants.{Personal};
ghost use Rattle.linking_laws.specs.Commits.{CanBeCommitted};
ghost use Rattle.catalogue_rules.specs.Settle.{arrival_of};
ghost use Rattle.linking_laws.specs.Weights.{arrival_weight, number_at, sum_fields};
ghost use Rattle.catalogue_rules.specs.State.{KeptField};
ghost use Rattle.linking_laws.specs.Tables.{AreOnce};
ghost use Rattle.marc_types.specs.declared.key.Place.{Place};
ghost use Rattle.std.specs.List.{sum_by};
ghost use Rattle.linking_laws.specs.Laws.{CountsChanged, OfCommits};

/// The numbers at places that are named once are together within the sum over the state.
pub fn places_named_once_are_within_the_sum()
    ensures { (number : Class → KeptField → ℕ) (s : State) (places : List Place) → AreOnce places
        → sum_by (number_at number s) places ≤ sum_fields number s }
{}

/// The stages of an authority's commit make at most as many visits to kept records as what it touches weighs.
#[tactic(auto, using(crate::proofs::Sums::visits_within))]
pub fn visits_are_within_what_is_touched()
    ensures { OfCommits Authority (λ s e. commit_visits s e ≤ commit_weight s e) }
{}

/// A bibliographic commit makes at most as many visits as its own heading fields weigh.
#[tactic(auto, using(crate::proofs::Sums::own_visits_within))]
pub fn own_visits_are_within_what_is_brought()
    ensures { OfCommits Bibliographic (λ s e. own_commit_visits s e ≤ arrival_weight (arrival_of e)) }
{}

/// A commit of either class makes at most as many visits as what it touches weighs.
#[tactic(auto, using(crate::proofs::Worked::visits_touched))]
pub fn a_commit_visits_what_it_touches()
    ensures { (class : Class) → OfCommits class (λ s e. visits_in class s e ≤ touched s e) }
{}

/// A worked case: an authority to which one field is linked, by one `$0`, is replaced by another. The field counts twice, each
/// time one for its record, one for itself, one for the `$0`, and one for the successor that it will await.
#[tactic(auto, using(crate::proofs::Worked::replacing_touches))]
pub fn replacing_an_authority_touches_eight()
    ensures { touched_by linked_state replaced ≡ 8 }
{}

/// A worked case: the same authority deleted with no successor. The field counts twice, with one for its `$0`.
#[tactic(auto, using(crate::proofs::Worked::deleting_touches))]
pub fn deleting_an_authority_touches_six()
    ensures { touched_by linked_state deleted ≡ 6 }
{}

/// A worked case: the authority comes that one field awaits. The field counts once: one for its record, one for itself, and one
/// for what it awaits. (It has something to compare, and so it is a heading field.)
#[tactic(auto, using(crate::proofs::Worked::arriving_touches))]
pub fn an_awaited_authority_touches_three()
    ensures { has_form plain_name Personal ≡ true → touched_by awaiting_state arrived ≡ 3 }
{}

/// A worked case: a bibliographic record with one heading field and one `$0` in it.
#[tactic(auto, using(crate::proofs::Worked::bringing_touches))]
pub fn a_bibliographic_record_touches_two()
    ensures { has_form numbered Personal ≡ true → touched_by linked_state brought ≡ 2 }
{}

/// The records that a commit changed are as many as the keys of the other records with a field that differs.
#[tactic(auto, using(crate::proofs::Counts::changed_number))]
pub fn a_receipt_counts_the_changed_records()
    ensures { (at : ℕ) (s : State) (e : Entry) (k : Class) → CanBeCommitted k s e → CountsChanged s e (receipt_by at s e) }
{}

/// The other numbers of a receipt are counted over the committed record's own fields, as soon as these are settled.
#[tactic(auto, using(crate::proofs::Counts::own_counts))]
pub fn a_receipt_counts_the_own_fields()
    ensures { (at : ℕ) (s : State) (e : Entry) (k : Class) → CanBeCommitted k s e → AreOwnCounts s e (receipt_by at s e) }
{}
