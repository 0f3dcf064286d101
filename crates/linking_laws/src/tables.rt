//! Laws of the tables by which the touched places are found.
ghost use Rattle.std.specs.Prelude.{◌≡◌, ◌≤◌, true, List, length};
ghost use Rattle.marc_types.specs.declared.key.Class.{Class};
ghost use Rattle.marc_types.specs.declared.key.Key.{Key};
ghost use Rattle.marc_types.specs.declared.key.Place.{Place};
ghost use Rattle.marc_types.specs.declared.form.Kind.{Kind};
ghost use Rattle.entry_record.specs.Authority.{Linkable, is_valid_key};
ghost use Rattle.catalogue_rules.specs.State.{KeptField, State, linkable_authorities, each_field};
ghost use Rattle.catalogue_rules.specs.Settle.{Arrival};
ghost use Rattle.linking_laws.specs.Behind.{placed_in};
ghost use Rattle.linking_laws.specs.Waiting.{asked_forms};
ghost use Rattle.marc_types.specs.declared.field.Subfield.{Subfield};
ghost use Rattle.heading_fields.specs.Numbers.{is_naming};
ghost use Rattle.catalogue_rules.specs.Valid.{IsTied};
ghost use Rattle.linking_laws.specs.Partway.{IsSteadyChange};
ghost use Rattle.linking_laws.specs.Middle.{AreAuthoritiesInOrder, IsMiddleWith};
ghost use Rattle.marc_types.specs.declared.form.Form.{Form};
ghost use Rattle.linking_laws.specs.Tables.{Agree, AreIndexed, IsReplaced, Tables};
ghost use Rattle.linking_laws.specs.Laws.{FindsChoices, FollowsExchange, FollowsTurns, NamesWaiting, OnTheWay, carry_in, reads_as};

/// Tables that agree with a state agree with the state in which one field and its rows are exchanged.
pub fn tables_follow_an_exchange()
    ensures { (t u : Tables) (s : State) (p : Place) (old h : KeptField) → FollowsExchange t u s p old h }
{}

/// In one turn of a stage a field is exchanged for what the change makes of it, and its rows with it: the tables still agree.
pub fn tables_follow_a_turn()
    ensures { (change : Class → KeptField → KeptField)
        → OnTheWay change (λ done before now. IsSteadyChange change before → FollowsTurns change done now) }
{}

/// Tables that agree with a state agree with the state with a record in its place, once its old rows are out and its new ones in.
pub fn tables_follow_a_record()
    ensures { (t u : Tables) (a : Arrival) (s : State)
        → Agree t s → IsReplaced a (placed_in a.class a s) t u → Agree u (placed_in a.class a s) }
{}

/// Carrying changes no table.
pub fn carrying_changes_no_table()
    ensures { (t : Tables) (all : List Linkable) (key : Key) (s : State) → IsMiddleWith all s → Agree t s
        → Agree t (each_field (carry_in all key) s) }
{}

/// Tables that agree with a state name exactly the places that wait for a valid key or for one of some forms.
#[tactic(auto, using(crate::proofs::Agreeing::named_by_tables))]
pub fn tables_name_what_waits()
    ensures { (t : Tables) (s : State) (forms : List Form) (key : Key) → is_valid_key key ≡ true → Agree t s → NamesWaiting t s forms key }
{}

/// A `$0` names a valid key exactly where its text without blanks reads as that key.
#[tactic(auto, using(crate::proofs::Naming::naming_is))]
pub fn a_number_names_the_key_that_it_reads_as()
    ensures { (key : Key) (s : Subfield) → is_valid_key key ≡ true → is_naming key s ≡ reads_as key s }
{}

/// A field that is tied is looked up by one form or by two.
pub fn a_field_asks_for_one_form_or_two()
    ensures some { (all : List Linkable) (class : Class) (kind : Kind) (h : KeptField) → IsTied all class h → 1 ≤ length (asked_forms class kind h) }
    ensures few { (class : Class) (kind : Kind) (h : KeptField) → length (asked_forms class kind h) ≤ 2 }
{}

/// A choice is found by the field's names and the rows of the two indexes, with no scan of the authorities.
#[tactic(auto, using(crate::proofs::Agreeing::choice_found))]
pub fn a_choice_is_found_by_the_indexes()
    ensures { (t : Tables) (s : State) → AreAuthoritiesInOrder s → AreIndexed t s → FindsChoices t (linkable_authorities s) }
{}
