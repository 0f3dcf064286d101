//! Who brought an entry.
use marc_types::Text;
use std::cmp::Ordering;

/// A loader of a run, and the library of its file. They are ordered by the run, then by the loader, then by the library's code.
#[derive(Debug, Drop)]
pub struct Bringer {
    pub run: u64,
    pub loader: u32,
    pub library: Text,
}

impl PartialEq for Bringer {
    ghost use Rattle.worklist_page.specs.Brought.{bringer_cmp, bringer_cmp_total};
    ghost use Rattle.std.specs.Ordering.{eq_by_cmp};
    ghost use Rattle.std.specs.Cmp.{eq_by_cmp_equiv, partial_equiv_from_equiv};

    ghost eq = { eq_by_cmp bringer_cmp };

    ghost laws = { partial_equiv_from_equiv (eq_by_cmp_equiv bringer_cmp_total) };

    fn eq(&self, other: &Self) -> bool {
        self.cmp(other).is_eq()
    }
}

impl Eq for Bringer {
    ghost use Rattle.worklist_page.specs.Brought.{bringer_cmp_total};
    ghost use Rattle.std.specs.Cmp.{eq_by_cmp_equiv};

    ghost laws = { eq_by_cmp_equiv bringer_cmp_total };
}

impl PartialOrd for Bringer {
    ghost use Rattle.worklist_page.specs.Brought.{bringer_cmp, bringer_cmp_total};
    ghost use Rattle.std.specs.Ordering.{as_partial_cmp};
    ghost use Rattle.std.specs.Cmp.{partial_order_from_total};

    ghost partial_cmp = { as_partial_cmp bringer_cmp };

    ghost laws = { partial_order_from_total bringer_cmp_total };

    fn partial_cmp(&self, other: &Self) -> Option<Ordering> {
        Some(self.cmp(other))
    }
}

impl Ord for Bringer {
    ghost use Rattle.worklist_page.specs.Brought.{bringer_cmp, bringer_cmp_total};
    ghost use Rattle.std.proofs.Common.{refl};

    ghost cmp = { bringer_cmp };

    ghost total = { bringer_cmp_total };

    ghost matches_partial_cmp = { λ x y. refl };

    ghost matches_eq = { λ x y. refl };

    #[tactic(auto, unfolding(crate::specs::Brought::bringer_cmp))]
    fn cmp(&self, other: &Self) -> Ordering {
        self.run
            .cmp(&other.run)
            .then_with(|| self.loader.cmp(&other.loader))
            .then_with(|| self.library.cmp(&other.library))
    }
}
