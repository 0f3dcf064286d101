use marc_types::Form;
use std::cmp::Ordering;
use std::hash::{Hash, Hasher};
use std::marker::Model;

/// A form of ambiguous headings, or of unlinked ones. They are ordered by the state, then by the form.
#[derive(Drop)]
pub(crate) struct StatedForm<'f> {
    pub(crate) ambiguous: bool,
    pub(crate) form: &'f Form,
}

impl<'f> Model for StatedForm<'f> {
    ghost use Rattle.heading_worklist.specs.Counts.{StatedForm};

    ghost Value = { StatedForm };

    ghost view = { λ a. record { ambiguous = a.ambiguous; form = a.form.now } };
}

impl PartialEq for StatedForm<'_> {
    ghost use Rattle.heading_worklist.specs.Counts.{stated_cmp, stated_cmp_total};
    ghost use Rattle.std.specs.Ordering.{eq_by_cmp};
    ghost use Rattle.std.specs.Cmp.{eq_by_cmp_equiv, partial_equiv_from_equiv};

    ghost eq = { eq_by_cmp stated_cmp };

    ghost laws = { partial_equiv_from_equiv (eq_by_cmp_equiv stated_cmp_total) };

    fn eq(&self, other: &Self) -> bool {
        self.cmp(other).is_eq()
    }
}

impl Eq for StatedForm<'_> {
    ghost use Rattle.heading_worklist.specs.Counts.{stated_cmp_total};
    ghost use Rattle.std.specs.Cmp.{eq_by_cmp_equiv};

    ghost laws = { eq_by_cmp_equiv stated_cmp_total };
}

impl PartialOrd for StatedForm<'_> {
    ghost use Rattle.heading_worklist.specs.Counts.{stated_cmp, stated_cmp_total};
    ghost use Rattle.std.specs.Ordering.{as_partial_cmp};
    ghost use Rattle.std.specs.Cmp.{partial_order_from_total};

    ghost partial_cmp = { as_partial_cmp stated_cmp };

    ghost laws = { partial_order_from_total stated_cmp_total };

    fn partial_cmp(&self, other: &Self) -> Option<Ordering> {
        Some(self.cmp(other))
    }
}

impl Ord for StatedForm<'_> {
    ghost use Rattle.heading_worklist.specs.Counts.{stated_cmp, stated_cmp_total};
    ghost use Rattle.std.proofs.Common.{refl};

    ghost cmp = { stated_cmp };

    ghost total = { stated_cmp_total };

    ghost matches_partial_cmp = { λ x y. refl };

    ghost matches_eq = { λ x y. refl };

    #[tactic(auto, unfolding(crate::specs::Counts::stated_cmp))]
    fn cmp(&self, other: &Self) -> Ordering {
        self.ambiguous
            .cmp(&other.ambiguous)
            .then_with(|| self.form.cmp(other.form))
    }
}

impl Hash for StatedForm<'_> {
    ghost use Rattle.heading_worklist.specs.Counts.{stated_writes, stated_writes_alike};

    ghost hash_input = { stated_writes };

    ghost respects_eq = { stated_writes_alike };

    #[tactic(auto, unfolding(crate::specs::Counts::stated_writes))]
    fn hash<H: Hasher>(&self, state: &mut H) {
        self.form.hash(state);
    }
}
