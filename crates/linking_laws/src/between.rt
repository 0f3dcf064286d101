//! Laws of the states between the stages of a commit.
ghost use Rattle.std.specs.Prelude.{ℕ, List, []};
ghost use Rattle.marc_types.specs.declared.key.Class.{Class};
ghost use Rattle.marc_types.specs.declared.key.Class.TheVariants.{Authority, Bibliographic};
ghost use Rattle.marc_types.specs.declared.key.Key.{Key};
ghost use Rattle.entry_record.specs.Authority.{Linkable};
ghost use Rattle.catalogue_rules.specs.State.{State, linkable_authorities, each_field, Row};
ghost use Rattle.catalogue_rules.specs.Settle.{settle_field};
ghost use Rattle.catalogue_rules.specs.Valid.{IsValid};
ghost use Rattle.linking_laws.specs.Partway.{IsSteadyChange};
ghost use Rattle.linking_laws.specs.Middle.{CanDrop, CanDropOn, IsEitherStage, IsMiddle, IsMiddleWith, IsVisited};
ghost use Rattle.linking_laws.specs.Stages.{Dropping, choose_field, settle_own};
ghost use Rattle.marc_types.specs.declared.field.Field.{Field};
ghost use Rattle.marc_types.specs.declared.form.Form.{Form};
ghost use Rattle.marc_types.specs.declared.key.Place.{Place};
ghost use Rattle.catalogue_rules.specs.Store.{StaysRecord};
ghost use Rattle.linking_laws.specs.Commits.{dropping_of, placed_by};
ghost use Rattle.linking_laws.specs.Laws.{GoesOnDropping, OfCommits, OfDropTurns, OfDropping, OfEitherStages, OfPlaces, OfTurns, StaysFitting, StaysLent, behind_turn, carry_in, drop_in};

/// A valid state may stand between two stages.
#[tactic(auto, using(crate::proofs::Settling::valid_middle))]
pub fn a_valid_state_is_a_middle()
    ensures { (s : State) → IsValid s → IsMiddle s }
{}

/// A stage that leaves each field or settles it leads from one state between stages to another, with the same authorities.
pub fn a_stage_leads_between_stages()
    ensures { OfEitherStages (λ all change s. IsMiddleWith all (each_field change s)) }
{}

/// One turn of such a stage leads between stages as well, with the same authorities.
pub fn a_turn_leads_between_stages()
    ensures { OfEitherStages (λ all change now. OfTurns now (λ p h. IsMiddleWith all (behind_turn change p h now))) }
{}

/// Carrying leaves each field or settles it, and so do choosing and settling.
pub fn carrying_and_choosing_settle()
    ensures carry { (key : Key) (all : List Linkable) → IsEitherStage all (carry_in all key) }
    ensures choose { (all : List Linkable) (forms : List Form) (key : Key) → IsEitherStage all (choose_field all forms key) }
    ensures settle { (all : List Linkable) → IsEitherStage all (settle_field all) }
{}

/// A visited record with room stays a record with another field at one place.
#[tactic(auto, using(crate::proofs::Settling::stays_record))]
pub fn a_record_stays_one()
    ensures { (class : Class) (row : Row) (i : ℕ) (field : Field) → IsVisited class row field → StaysRecord i field row.1 }
{}

/// In a turn of such a stage the record of the place stays one, and so it does in a turn of dropping.
pub fn a_turn_leaves_a_record()
    ensures stage { OfEitherStages (λ all change now. OfPlaces now (λ p h. StaysLent p (change p.class h).field now)) }
    ensures dropping { OfDropTurns (λ change now p h. StaysLent p (change p.class h).field now) }
{}

/// And the record of the place fits its written form.
pub fn a_turn_leaves_a_record_that_fits()
    ensures stage { OfEitherStages (λ all change now. OfPlaces now (λ p h. StaysFitting p (change p.class h).field now)) }
    ensures dropping { OfDropTurns (λ change now p h. StaysFitting p (change p.class h).field now) }
{}

/// Such a stage changes no field of an authority record but a 5XX, so that the authorities stay also on its way.
pub fn a_stage_is_steady()
    ensures { OfEitherStages (λ all change s. IsSteadyChange change s) }
{}

/// Nor does dropping.
pub fn dropping_is_steady()
    ensures { OfDropping (λ d key successor s. IsSteadyChange (drop_in s d key successor) s) }
{}

/// With the record of an admitted authority in its place, a valid state can drop the links that the commit ends.
pub fn a_commit_can_drop()
    ensures { OfCommits Authority (λ s e. CanDrop (dropping_of s e) e.key (placed_by Authority s e)) }
{}

/// A bibliographic record in its place leads from a valid state to one between stages.
pub fn a_bibliographic_record_leads_to_a_middle()
    ensures { OfCommits Bibliographic (λ s e. IsMiddleWith (linkable_authorities s) (placed_by Bibliographic s e)) }
{}

/// Dropping leads from such a state to one between stages, with the same authorities.
pub fn dropping_leads_between_stages()
    ensures { OfDropping (λ d key successor s. IsMiddleWith (linkable_authorities s) (each_field (drop_in s d key successor) s)) }
{}

/// Dropping begins with no place done, and each turn leads on, with the same authorities and room in each record.
pub fn dropping_goes_on_by_one_place()
    ensures begins { (d : Dropping) (key : Key) (s : State) → CanDrop d key s → CanDropOn d key [] s }
    ensures goes_on { (d : Dropping) (key : Key) (done : List Place) (now : State) → CanDropOn d key done now → GoesOnDropping d key done now }
{}

/// Settling the own fields leads from one state between stages to another.
pub fn own_fields_lead_between_stages()
    ensures { (all : List Linkable) (class : Class) (key : Key) (s : State) → IsMiddleWith all s → IsMiddleWith all (settle_own all class key s) }
{}
