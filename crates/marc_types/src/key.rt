use crate::copying::{NoMemory, TryCopy};
use crate::sequence::Sequence;
use crate::text::Text;
use std::alloc::Global;
use std::cmp::Ordering;
use std::hash::{Hash, Hasher};

/// What a record describes: a heading under authority control, or a publication.
#[derive(Clone, Copy, Debug, PartialEq, Eq, PartialOrd, Ord, Hash)]
pub enum Class {
    Authority,
    Bibliographic,
}

impl Class {
    ghost use Rattle.std.specs.Prelude.{◌≡◌};
    ghost use Rattle.marc_types.specs.Order.{class_rank};

    /// The place of the class in the order of classes, by which places are ordered.
    fn rank(self) -> u8
        ensures { result ≡ class_rank self }
    {
        match self {
            Class::Authority => 0,
            Class::Bibliographic => 1,
        }
    }
}

/// The code of the institution that gave a record its number, and that number. Keys are ordered by the bytes of the
/// code, then by those of the number.
#[derive(Debug, Drop)]
pub struct Key {
    pub code: Text,
    pub number: Text,
}

/// Keys, mostly in key order.
pub type Keys = Sequence<Key>;

/// One field of one record: the record's class and key, and the field's place in it, from 0. Places are ordered so.
#[derive(Debug, Drop)]
pub struct Place {
    pub class: Class,
    pub key: Key,
    pub field: u32,
}

/// Places of fields.
pub type Places = Sequence<Place>;

impl TryCopy for Key {
    fn copy(&self, alloc: Global) -> Result<Self, NoMemory> {
        Ok(Key {
            code: self.code.copy(alloc)?,
            number: self.number.copy(alloc)?,
        })
    }
}

impl TryCopy for Place {
    fn copy(&self, alloc: Global) -> Result<Self, NoMemory> {
        Ok(Place {
            class: self.class,
            key: self.key.copy(alloc)?,
            field: self.field,
        })
    }
}

impl PartialEq for Key {
    ghost use Rattle.marc_types.specs.Order.{key_cmp, key_cmp_total};
    ghost use Rattle.std.specs.Ordering.{eq_by_cmp};
    ghost use Rattle.std.specs.Cmp.{eq_by_cmp_equiv, partial_equiv_from_equiv};

    ghost eq = { eq_by_cmp key_cmp };

    ghost laws = { partial_equiv_from_equiv (eq_by_cmp_equiv key_cmp_total) };

    fn eq(&self, other: &Key) -> bool {
        self.code == other.code && self.number == other.number
    }
}

impl Eq for Key {
    ghost use Rattle.marc_types.specs.Order.{key_cmp_total};
    ghost use Rattle.std.specs.Cmp.{eq_by_cmp_equiv};

    ghost laws = { eq_by_cmp_equiv key_cmp_total };
}

impl PartialOrd for Key {
    ghost use Rattle.marc_types.specs.Order.{key_cmp, key_cmp_total};
    ghost use Rattle.std.specs.Ordering.{as_partial_cmp};
    ghost use Rattle.std.specs.Cmp.{partial_order_from_total};

    ghost partial_cmp = { as_partial_cmp key_cmp };

    ghost laws = { partial_order_from_total key_cmp_total };

    fn partial_cmp(&self, other: &Key) -> Option<Ordering> {
        Some(self.cmp(other))
    }
}

impl Ord for Key {
    ghost use Rattle.marc_types.specs.Order.{key_cmp, key_cmp_total};
    ghost use Rattle.std.proofs.Common.{refl};

    ghost cmp = { key_cmp };

    ghost total = { key_cmp_total };

    ghost matches_partial_cmp = { λ x y. refl };

    ghost matches_eq = { λ x y. refl };

    #[tactic(auto, unfolding(crate::specs::Order::key_cmp))]
    fn cmp(&self, other: &Key) -> Ordering {
        self.code
            .cmp(&other.code)
            .then_with(|| self.number.cmp(&other.number))
    }
}

impl Hash for Key {
    ghost use Rattle.marc_types.specs.Order.{key_writes, key_writes_alike};

    ghost hash_input = { key_writes };

    ghost respects_eq = { key_writes_alike };

    #[tactic(auto, unfolding(crate::specs::Order::key_writes))]
    fn hash<H: Hasher>(&self, state: &mut H) {
        self.code.hash(state);
        self.number.hash(state);
    }
}

impl PartialEq for Place {
    ghost use Rattle.marc_types.specs.Order.{place_cmp, place_cmp_total};
    ghost use Rattle.std.specs.Ordering.{eq_by_cmp};
    ghost use Rattle.std.specs.Cmp.{eq_by_cmp_equiv, partial_equiv_from_equiv};

    ghost eq = { eq_by_cmp place_cmp };

    ghost laws = { partial_equiv_from_equiv (eq_by_cmp_equiv place_cmp_total) };

    fn eq(&self, other: &Place) -> bool {
        self.cmp(other).is_eq()
    }
}

impl Eq for Place {
    ghost use Rattle.marc_types.specs.Order.{place_cmp_total};
    ghost use Rattle.std.specs.Cmp.{eq_by_cmp_equiv};

    ghost laws = { eq_by_cmp_equiv place_cmp_total };
}

impl PartialOrd for Place {
    ghost use Rattle.marc_types.specs.Order.{place_cmp, place_cmp_total};
    ghost use Rattle.std.specs.Ordering.{as_partial_cmp};
    ghost use Rattle.std.specs.Cmp.{partial_order_from_total};

    ghost partial_cmp = { as_partial_cmp place_cmp };

    ghost laws = { partial_order_from_total place_cmp_total };

    fn partial_cmp(&self, other: &Place) -> Option<Ordering> {
        Some(self.cmp(other))
    }
}

impl Ord for Place {
    ghost use Rattle.marc_types.specs.Order.{place_cmp, place_cmp_total};
    ghost use Rattle.std.proofs.Common.{refl};

    ghost cmp = { place_cmp };

    ghost total = { place_cmp_total };

    ghost matches_partial_cmp = { λ x y. refl };

    ghost matches_eq = { λ x y. refl };

    #[tactic(auto, unfolding(crate::specs::Order::place_cmp))]
    fn cmp(&self, other: &Place) -> Ordering {
        self.class
            .rank()
            .cmp(&other.class.rank())
            .then_with(|| self.key.cmp(&other.key))
            .then_with(|| self.field.cmp(&other.field))
    }
}

impl Hash for Place {
    ghost use Rattle.marc_types.specs.Order.{place_writes, place_writes_alike};

    ghost hash_input = { place_writes };

    ghost respects_eq = { place_writes_alike };

    #[tactic(auto, unfolding(crate::specs::Order::place_writes))]
    fn hash<H: Hasher>(&self, state: &mut H) {
        self.class.rank().hash(state);
        self.key.hash(state);
        self.field.hash(state);
    }
}
