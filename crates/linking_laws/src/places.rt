//! Laws of a change of many fields, place by place.
ghost use Rattle.std.specs.Prelude.{◌≡◌, ℕ, List, [], ◌∷◌, ◌++◌, Option, false};
ghost use Rattle.marc_types.specs.declared.key.Class.{Class};
ghost use Rattle.marc_types.specs.declared.key.Place.{Place};
ghost use Rattle.catalogue_rules.specs.State.{KeptField, State, each_field};
ghost use Rattle.linking_laws.specs.Partway.{AreOwnDone, HasAtMost, IsPartway, IsSteadyChange, IsWhole, is_place_among, own_places, same_place};
ghost use Rattle.marc_types.specs.declared.key.Key.{Key};
ghost use Rattle.marc_types.specs.declared.form.Form.{Form};
ghost use Rattle.entry_record.specs.Authority.{Linkable};
ghost use Rattle.linking_laws.specs.Stages.{carry_by, choose_field};
ghost use Rattle.linking_laws.specs.Tables.{AreOnce, dropped_at, linked_at};
ghost use Rattle.linking_laws.specs.Waiting.{is_waiting_for};
ghost use Rattle.std.specs.Ordering.{eq_by_cmp};
ghost use Rattle.linking_laws.specs.Receipts.{place_in};
ghost use Rattle.marc_types.specs.Order.{place_cmp};
ghost use Rattle.catalogue_rules.specs.Settle.{settle_field};
ghost use Rattle.linking_laws.specs.Laws.{AuthoritiesStay, GoesOnByOne, IsIdleCarry, IsWholeWhere, OfDropping, OnTheWay, SettlesOwn, drop_in};

/// Before its first place a change of many fields has changed nothing.
#[tactic(auto, using(crate::proofs::Partial::partway_none))]
pub fn a_change_begins_with_no_place()
    ensures { (change : Class → KeptField → KeptField) (s : State) → IsPartway change [] s s }
{}

/// One exchange at a place that isn't done takes it one place further, whatever the order of the places.
#[tactic(auto, using(crate::proofs::Partial::step_on))]
pub fn a_change_goes_on_by_one_place()
    ensures { (change : Class → KeptField → KeptField) (done : List Place) (before now : State) → GoesOnByOne change done before now }
{}

/// Where the change leaves all other places, the state is the one with each field changed.
#[tactic(auto, using(crate::proofs::Partial::partway_all))]
pub fn a_change_ends_with_its_last_place()
    ensures { (change : Class → KeptField → KeptField)
        → OnTheWay change (λ done before now. IsWhole change done before → each_field change before ≡ now) }
{}

/// Once the places of one record are done, and no others, its own fields are settled.
pub fn own_fields_are_settled()
    ensures { (all : List Linkable) (class : Class) (key : Key) → OnTheWay (settle_field all) (SettlesOwn all class key) }
{}

/// One record's fields are taken in turn: each place is new, and behind its last field exactly its own places are done.
pub fn own_places_are_taken_in_turn()
    ensures new { (class : Class) (key : Key) (n : ℕ) → is_place_among (own_places class key n) (place_in class key n) ≡ false }
    ensures done { (class : Class) (key : Key) (n : ℕ) (s : State) → HasAtMost class key n s → AreOwnDone class key (own_places class key n) s }
{}

/// However far a change of 5XX fields has come, the linkable authorities are those before, and so no choice elsewhere changes.
#[tactic(auto, using(crate::proofs::Partial::linkables_partway))]
pub fn authorities_stay_on_the_way()
    ensures { (change : Class → KeptField → KeptField)
        → OnTheWay change (λ done before now. IsSteadyChange change before → AuthoritiesStay before now) }
{}

/// In a listing the next place isn't among those before it.
pub fn a_listed_place_is_new()
    ensures { (done : List Place) (p : Place) (rest : List Place) → AreOnce (done ++ p ∷ rest) → is_place_among done p ≡ false }
{}

/// The test of two places is the one by which sorted containers of places stand.
#[tactic(auto, using(crate::proofs::Listed::place_by_order))]
pub fn places_are_the_same_by_their_order()
    ensures { (p q : Place) → same_place p q ≡ eq_by_cmp place_cmp p q }
{}

/// Carrying changes no place outside a listing of those linked to the key.
pub fn carrying_is_whole()
    ensures { (key : Key) (authority : Option Linkable) (s : State) → IsWholeWhere (linked_at key) (carry_by key authority) s }
{}

/// Choosing changes no place outside a listing of those that wait for the key or for one of the forms.
pub fn choosing_is_whole()
    ensures { (now : List Linkable) (forms : List Form) (key : Key) (s : State)
        → IsWholeWhere (is_waiting_for forms key) (choose_field now forms key) s }
{}

/// Dropping changes no place outside a listing of those linked to the key and, where there is a successor, those that wait for the key.
pub fn dropping_is_whole()
    ensures { OfDropping (λ d key successor s. IsWholeWhere (dropped_at key successor) (drop_in s d key successor) s) }
{}

/// Carrying the heading that the key's authority has leaves a settled field: where it is the same as before, nothing changes.
pub fn carrying_the_same_heading_changes_nothing()
    ensures { (all : List Linkable) (key : Key) (c : Linkable) (class : Class) (h : KeptField) → IsIdleCarry all key c class h }
{}
