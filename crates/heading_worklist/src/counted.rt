use crate::compared::Compared;
use std::cmp::Ordering;
use std::marker::Model;

/// An open heading, how often its full form stands among all, and how often its base form. They are ordered by the count, the greatest
/// first, and those of one count as headings are.
#[derive(Drop)]
pub struct Counted<'f> {
    pub heading: &'f Compared<'f>,
    pub count: u32,
    pub base_count: u32,
}

impl<'f> Model for Counted<'f> {
    ghost use Rattle.heading_worklist.specs.Counts.{Counted};

    ghost Value = { Counted };

    ghost view = { λ c. record { heading = c.heading.now; count = c.count; base_count = c.base_count } };
}

impl PartialEq for Counted<'_> {
    ghost use Rattle.heading_worklist.specs.Counts.{counted_cmp, counted_cmp_total};
    ghost use Rattle.std.specs.Ordering.{eq_by_cmp};
    ghost use Rattle.std.specs.Cmp.{eq_by_cmp_equiv, partial_equiv_from_equiv};

    ghost eq = { eq_by_cmp counted_cmp };

    ghost laws = { partial_equiv_from_equiv (eq_by_cmp_equiv counted_cmp_total) };

    fn eq(&self, other: &Self) -> bool {
        self.cmp(other).is_eq()
    }
}

impl Eq for Counted<'_> {
    ghost use Rattle.heading_worklist.specs.Counts.{counted_cmp_total};
    ghost use Rattle.std.specs.Cmp.{eq_by_cmp_equiv};

    ghost laws = { eq_by_cmp_equiv counted_cmp_total };
}

impl PartialOrd for Counted<'_> {
    ghost use Rattle.heading_worklist.specs.Counts.{counted_cmp, counted_cmp_total};
    ghost use Rattle.std.specs.Ordering.{as_partial_cmp};
    ghost use Rattle.std.specs.Cmp.{partial_order_from_total};

    ghost partial_cmp = { as_partial_cmp counted_cmp };

    ghost laws = { partial_order_from_total counted_cmp_total };

    fn partial_cmp(&self, other: &Self) -> Option<Ordering> {
        Some(self.cmp(other))
    }
}

impl Ord for Counted<'_> {
    ghost use Rattle.heading_worklist.specs.Counts.{counted_cmp, counted_cmp_total};
    ghost use Rattle.std.proofs.Common.{refl};

    ghost cmp = { counted_cmp };

    ghost total = { counted_cmp_total };

    ghost matches_partial_cmp = { λ x y. refl };

    ghost matches_eq = { λ x y. refl };

    #[tactic(auto, unfolding(crate::specs::Counts::counted_cmp))]
    fn cmp(&self, other: &Self) -> Ordering {
        match other.count.cmp(&self.count) {
            Ordering::Equal => self.heading.order(other.heading),
            order => order,
        }
    }
}
