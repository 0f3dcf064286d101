//! Laws of one choice, one field, and one commit: each is the contract of a function that does nothing.
ghost use Rattle.std.specs.Prelude.{◌≡◌, List};
ghost use Rattle.marc_types.specs.declared.key.Class.{Class};
ghost use Rattle.marc_types.specs.declared.key.Class.TheVariants.{Authority, Bibliographic};
ghost use Rattle.marc_types.specs.declared.key.Key.{Key};
ghost use Rattle.marc_types.specs.declared.entry.Entry.{Entry};
ghost use Rattle.marc_types.specs.declared.form.Kind.{Kind};
ghost use Rattle.entry_record.specs.Authority.{Linkable};
ghost use Rattle.catalogue_rules.specs.State.{KeptField, State, each_field, linkable_authorities};
ghost use Rattle.catalogue_rules.specs.Settle.{Arrival, step};
ghost use Rattle.catalogue_rules.specs.Settle.{arrival_of};
ghost use Rattle.catalogue_rules.specs.Valid.{EachField, IsValid};
ghost use Rattle.linking_laws.specs.Behind.{placed_in};
ghost use Rattle.linking_laws.specs.Waiting.{others_of};
ghost use Rattle.linking_laws.specs.Stages.{choose_field};
ghost use Rattle.linking_laws.specs.Visits.{choose_visits};
ghost use Rattle.linking_laws.specs.Weights.{sum_fields};
ghost use Rattle.linking_laws.specs.Commits.{CanBeCommitted, IsChosenAlike, IsSound, StaysUntouched, field_behind, field_staged, state_staged};
ghost use Rattle.linking_laws.specs.Laws.{IsChosenWithout, IsSameForSameForms, OfCommits, OfSoundFields, state_own};

/// A choice is the same without the authorities of one key, where the field doesn't name the key and asks for none of their forms.
#[tactic(auto, using(crate::proofs::Heart::choice_without))]
pub fn a_choice_stays_without_one_key()
    ensures { (key : Key) (all : List Linkable) (class : Class) (kind : Kind) (h : KeptField) → IsChosenWithout key all class kind h }
{}

/// The authorities under other keys are the same before and behind a commit.
#[tactic(auto, using(crate::proofs::Others::others_behind_commit))]
pub fn other_authorities_stay()
    ensures { (a : Arrival) (s : State)
        → others_of a.key (linkable_authorities s) ≡ others_of a.key (linkable_authorities (placed_in Authority a s)) }
{}

/// An unlinked field that neither names the committed key nor asks for one of its forms has the choice that it had.
#[tactic(auto, using(crate::proofs::Staged::chosen_alike))]
pub fn choices_elsewhere_stay()
    ensures { (s : State) (e : Entry) (class : Class) (h : KeptField) → CanBeCommitted Authority s e → IsChosenAlike s e class h }
{}

/// Each field of a valid state is tied, and settling leaves it.
#[tactic(auto, using(crate::proofs::Staged::every_sound))]
pub fn every_field_is_sound()
    ensures { (s : State) → IsValid s → EachField (IsSound (linkable_authorities s)) s }
{}

/// What the stages make of a field is what a pass over the whole catalogue makes of it.
#[tactic(auto, using(crate::proofs::Staged::staged_field))]
pub fn a_field_changes_by_stages()
    ensures { OfSoundFields (λ s e class h. field_staged s e class h ≡ field_behind s e class h) }
{}

/// A field that is neither linked to the committed key nor waits for it or for one of its forms stays.
#[tactic(auto, using(crate::proofs::Staged::untouched_field))]
pub fn an_untouched_field_stays()
    ensures { OfSoundFields StaysUntouched }
{}

/// The state behind an authority's commit is made by stages that look at touched fields alone.
#[tactic(auto, using(crate::proofs::Staged::staged_state))]
pub fn an_authority_is_committed_by_stages()
    ensures { OfCommits Authority (λ s e. step s (arrival_of e) ≡ state_staged s e) }
{}

/// A bibliographic commit puts the record into its place and settles its own fields.
#[tactic(auto, using(crate::proofs::Staged::settled_state))]
pub fn a_bibliographic_record_is_committed_alone()
    ensures { OfCommits Bibliographic (λ s e. step s (arrival_of e) ≡ state_own s e) }
{}

/// Lists with the same forms make the same stage: each field is given the same choice, with the same visits.
pub fn the_same_forms_make_the_same_stage()
    ensures field { (now : List Linkable) (key : Key) (class : Class) (h : KeptField)
        → IsSameForSameForms (λ forms. choose_field now forms key class h) }
    ensures visits { (now : List Linkable) (key : Key) (class : Class) (h : KeptField)
        → IsSameForSameForms (λ forms. choose_visits now forms key class h) }
    ensures state { (now : List Linkable) (key : Key) (s : State) → IsSameForSameForms (λ forms. each_field (choose_field now forms key) s) }
    ensures sum { (now : List Linkable) (key : Key) (s : State) → IsSameForSameForms (λ forms. sum_fields (choose_visits now forms key) s) }
{}
