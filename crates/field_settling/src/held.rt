ghost use Rattle.std.specs.Prelude.{◌≡◌};
ghost use Rattle.catalogue_rules.specs.State.{kept_field};
ghost use Rattle.catalogue_rules.specs.Sameness.{same_kept};
ghost use Rattle.field_settling.specs.Held.{held_as};

use marc_types::{Field, Tie};

/// A field with its tie.
#[derive(Debug, Drop)]
pub struct Held {
    pub field: Field,
    pub tie: Tie,
}

impl Held {
    /// Whether this is the field with that tie.
    #[tactic(auto, unfolding(catalogue_rules::specs::Sameness::same_field, catalogue_rules::specs::Sameness::same_tie))]
    pub fn is(&self, field: &Field, tie: &Tie) -> bool
        ensures { result ≡ same_kept (kept_field field.now tie.now) (held_as self.now) }
    {
        *field == self.field && *tie == self.tie
    }
}
