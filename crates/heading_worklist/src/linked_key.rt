use marc_types::Key;
use std::cmp::Ordering;
use std::marker::Model;

/// The key of an authority that fields are linked to, which contracts see as the key.
#[derive(Drop)]
pub(crate) struct LinkedKey<'a> {
    pub(crate) key: &'a Key,
}

impl<'a> Model for LinkedKey<'a> {
    ghost use Rattle.marc_types.specs.declared.key.Key.{Key};

    ghost Value = { Key };

    ghost view = { λ linked. linked.key.now };
}

impl PartialEq for LinkedKey<'_> {
    ghost use Rattle.marc_types.specs.Order.{key_cmp, key_cmp_total};
    ghost use Rattle.std.specs.Ordering.{eq_by_cmp};
    ghost use Rattle.std.specs.Cmp.{eq_by_cmp_equiv, partial_equiv_from_equiv};

    ghost eq = { eq_by_cmp key_cmp };

    ghost laws = { partial_equiv_from_equiv (eq_by_cmp_equiv key_cmp_total) };

    fn eq(&self, other: &Self) -> bool {
        self.cmp(other).is_eq()
    }
}

impl Eq for LinkedKey<'_> {
    ghost use Rattle.marc_types.specs.Order.{key_cmp_total};
    ghost use Rattle.std.specs.Cmp.{eq_by_cmp_equiv};

    ghost laws = { eq_by_cmp_equiv key_cmp_total };
}

impl PartialOrd for LinkedKey<'_> {
    ghost use Rattle.marc_types.specs.Order.{key_cmp, key_cmp_total};
    ghost use Rattle.std.specs.Ordering.{as_partial_cmp};
    ghost use Rattle.std.specs.Cmp.{partial_order_from_total};

    ghost partial_cmp = { as_partial_cmp key_cmp };

    ghost laws = { partial_order_from_total key_cmp_total };

    fn partial_cmp(&self, other: &Self) -> Option<Ordering> {
        Some(self.cmp(other))
    }
}

impl Ord for LinkedKey<'_> {
    ghost use Rattle.marc_types.specs.Order.{key_cmp, key_cmp_total};
    ghost use Rattle.std.proofs.Common.{refl};

    ghost cmp = { key_cmp };

    ghost total = { key_cmp_total };

    ghost matches_partial_cmp = { λ x y. refl };

    ghost matches_eq = { λ x y. refl };

    fn cmp(&self, other: &Self) -> Ordering {
        self.key.cmp(other.key)
    }
}
