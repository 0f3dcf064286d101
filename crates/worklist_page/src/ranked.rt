//! A library among others.
ghost use Rattle.std.specs.Prelude.{◌≡◌};
ghost use Rattle.worklist_page.specs.Shares.{total_of};

use crate::shares::Shares;
use marc_types::Text;
use std::cmp::Ordering;
use std::marker::Model;

/// A library's code, and its headings. That with the most headings is first.
#[derive(Drop)]
pub(crate) struct Ranked<'a> {
    pub(crate) code: &'a Text,
    pub(crate) shares: Shares,
}

impl<'a> Model for Ranked<'a> {
    ghost use Rattle.worklist_page.specs.Ranking.{Ranked};

    ghost Value = { Ranked };

    ghost view = { λ r. record { code = r.code.now; shares = r.shares } };
}

fn total_of(shares: Shares) -> u128
    ensures { result ≡ total_of shares }
{
    shares.linked as u128 + shares.ambiguous as u128 + shares.unlinked as u128
}

impl PartialEq for Ranked<'_> {
    ghost use Rattle.worklist_page.specs.Ranking.{ranked_cmp, ranked_cmp_total};
    ghost use Rattle.std.specs.Ordering.{eq_by_cmp};
    ghost use Rattle.std.specs.Cmp.{eq_by_cmp_equiv, partial_equiv_from_equiv};

    ghost eq = { eq_by_cmp ranked_cmp };

    ghost laws = { partial_equiv_from_equiv (eq_by_cmp_equiv ranked_cmp_total) };

    fn eq(&self, other: &Self) -> bool {
        self.cmp(other).is_eq()
    }
}

impl Eq for Ranked<'_> {
    ghost use Rattle.worklist_page.specs.Ranking.{ranked_cmp_total};
    ghost use Rattle.std.specs.Cmp.{eq_by_cmp_equiv};

    ghost laws = { eq_by_cmp_equiv ranked_cmp_total };
}

impl PartialOrd for Ranked<'_> {
    ghost use Rattle.worklist_page.specs.Ranking.{ranked_cmp, ranked_cmp_total};
    ghost use Rattle.std.specs.Ordering.{as_partial_cmp};
    ghost use Rattle.std.specs.Cmp.{partial_order_from_total};

    ghost partial_cmp = { as_partial_cmp ranked_cmp };

    ghost laws = { partial_order_from_total ranked_cmp_total };

    fn partial_cmp(&self, other: &Self) -> Option<Ordering> {
        Some(self.cmp(other))
    }
}

impl Ord for Ranked<'_> {
    ghost use Rattle.worklist_page.specs.Ranking.{ranked_cmp, ranked_cmp_total};
    ghost use Rattle.std.proofs.Common.{refl};

    ghost cmp = { ranked_cmp };

    ghost total = { ranked_cmp_total };

    ghost matches_partial_cmp = { λ x y. refl };

    ghost matches_eq = { λ x y. refl };

    #[tactic(auto, unfolding(crate::specs::Ranking::ranked_cmp))]
    fn cmp(&self, other: &Self) -> Ordering {
        total_of(other.shares)
            .cmp(&total_of(self.shares))
            .then_with(|| self.code.cmp(other.code))
    }
}
