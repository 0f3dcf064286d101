ghost use Rattle.std.specs.Prelude.{◌≡◌};

use crate::copying::{NoMemory, TryCopy};
use crate::sequence::Sequence;
use crate::text::Text;
use std::alloc::Global;
use std::cmp::Ordering;
use std::hash::{Hash, Hasher};

/// The kinds of controlled headings, by the last two digits of their tags: 00, 10, 11, 30, 48, 50, 51 and 55.
#[derive(Clone, Copy, Debug, PartialEq, Eq, PartialOrd, Ord, Hash)]
pub enum Kind {
    Personal,
    Corporate,
    Meeting,
    Title,
    Chronological,
    Topical,
    Geographic,
    Genre,
}

impl Kind {
    ghost use Rattle.marc_types.specs.Order.{kind_rank};

    /// The place of the kind in the order of its tags, by which forms are ordered.
    fn rank(self) -> u8
        ensures { result ≡ kind_rank self }
    {
        match self {
            Kind::Personal => 0,
            Kind::Corporate => 1,
            Kind::Meeting => 2,
            Kind::Title => 3,
            Kind::Chronological => 4,
            Kind::Topical => 5,
            Kind::Geographic => 6,
            Kind::Genre => 7,
        }
    }
}

/// A subfield's code, and its text as headings are compared.
#[derive(Debug, Drop)]
pub struct Item {
    pub code: u8,
    pub text: Text,
}

/// The items of a form, in the order of the subfields.
pub type Items = Sequence<Item>;

/// A heading as headings are compared. Two headings are the same where their forms are equal.
#[derive(Debug, Drop)]
pub struct Form {
    pub kind: Kind,
    pub items: Items,
}

/// Forms, as those under which an authority is found.
pub type Forms = Sequence<Form>;

impl TryCopy for Item {
    fn copy(&self, alloc: Global) -> Result<Self, NoMemory> {
        Ok(Item {
            code: self.code,
            text: self.text.copy(alloc)?,
        })
    }
}

impl TryCopy for Form {
    fn copy(&self, alloc: Global) -> Result<Self, NoMemory> {
        Ok(Form {
            kind: self.kind,
            items: self.items.copy(alloc)?,
        })
    }
}

impl PartialEq for Item {
    ghost use Rattle.marc_types.specs.Order.{item_cmp, item_cmp_total};
    ghost use Rattle.std.specs.Ordering.{eq_by_cmp};
    ghost use Rattle.std.specs.Cmp.{eq_by_cmp_equiv, partial_equiv_from_equiv};

    ghost eq = { eq_by_cmp item_cmp };

    ghost laws = { partial_equiv_from_equiv (eq_by_cmp_equiv item_cmp_total) };

    fn eq(&self, other: &Item) -> bool {
        self.code == other.code && self.text == other.text
    }
}

impl Eq for Item {
    ghost use Rattle.marc_types.specs.Order.{item_cmp_total};
    ghost use Rattle.std.specs.Cmp.{eq_by_cmp_equiv};

    ghost laws = { eq_by_cmp_equiv item_cmp_total };
}

impl PartialOrd for Item {
    ghost use Rattle.marc_types.specs.Order.{item_cmp, item_cmp_total};
    ghost use Rattle.std.specs.Ordering.{as_partial_cmp};
    ghost use Rattle.std.specs.Cmp.{partial_order_from_total};

    ghost partial_cmp = { as_partial_cmp item_cmp };

    ghost laws = { partial_order_from_total item_cmp_total };

    fn partial_cmp(&self, other: &Item) -> Option<Ordering> {
        Some(self.cmp(other))
    }
}

impl Ord for Item {
    ghost use Rattle.marc_types.specs.Order.{item_cmp, item_cmp_total};
    ghost use Rattle.std.proofs.Common.{refl};

    ghost cmp = { item_cmp };

    ghost total = { item_cmp_total };

    ghost matches_partial_cmp = { λ x y. refl };

    ghost matches_eq = { λ x y. refl };

    #[tactic(auto, unfolding(crate::specs::Order::item_cmp))]
    fn cmp(&self, other: &Item) -> Ordering {
        self.code
            .cmp(&other.code)
            .then_with(|| self.text.cmp(&other.text))
    }
}

impl Hash for Item {
    ghost use Rattle.marc_types.specs.Order.{item_writes, item_writes_alike};

    ghost hash_input = { item_writes };

    ghost respects_eq = { item_writes_alike };

    #[tactic(auto, unfolding(crate::specs::Order::item_writes))]
    fn hash<H: Hasher>(&self, state: &mut H) {
        self.code.hash(state);
        self.text.hash(state);
    }
}

impl PartialEq for Form {
    ghost use Rattle.marc_types.specs.Order.{form_cmp, form_cmp_total};
    ghost use Rattle.std.specs.Ordering.{eq_by_cmp};
    ghost use Rattle.std.specs.Cmp.{eq_by_cmp_equiv, partial_equiv_from_equiv};

    ghost eq = { eq_by_cmp form_cmp };

    ghost laws = { partial_equiv_from_equiv (eq_by_cmp_equiv form_cmp_total) };

    fn eq(&self, other: &Form) -> bool {
        self.kind.rank() == other.kind.rank() && self.items == other.items
    }
}

impl Eq for Form {
    ghost use Rattle.marc_types.specs.Order.{form_cmp_total};
    ghost use Rattle.std.specs.Cmp.{eq_by_cmp_equiv};

    ghost laws = { eq_by_cmp_equiv form_cmp_total };
}

impl PartialOrd for Form {
    ghost use Rattle.marc_types.specs.Order.{form_cmp, form_cmp_total};
    ghost use Rattle.std.specs.Ordering.{as_partial_cmp};
    ghost use Rattle.std.specs.Cmp.{partial_order_from_total};

    ghost partial_cmp = { as_partial_cmp form_cmp };

    ghost laws = { partial_order_from_total form_cmp_total };

    fn partial_cmp(&self, other: &Form) -> Option<Ordering> {
        Some(self.cmp(other))
    }
}

impl Ord for Form {
    ghost use Rattle.marc_types.specs.Order.{form_cmp, form_cmp_total};
    ghost use Rattle.std.proofs.Common.{refl};

    ghost cmp = { form_cmp };

    ghost total = { form_cmp_total };

    ghost matches_partial_cmp = { λ x y. refl };

    ghost matches_eq = { λ x y. refl };

    #[tactic(auto, unfolding(crate::specs::Order::form_cmp))]
    fn cmp(&self, other: &Form) -> Ordering {
        self.kind
            .rank()
            .cmp(&other.kind.rank())
            .then_with(|| self.items.cmp(&other.items))
    }
}

impl Hash for Form {
    ghost use Rattle.marc_types.specs.Order.{form_writes, form_writes_alike};

    ghost hash_input = { form_writes };

    ghost respects_eq = { form_writes_alike };

    #[tactic(auto, unfolding(crate::specs::Order::form_writes))]
    fn hash<H: Hasher>(&self, state: &mut H) {
        self.kind.rank().hash(state);
        self.items.hash(state);
    }
}
