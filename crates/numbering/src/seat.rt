ghost use Rattle.std.specs.Prelude.{◌≡◌};
ghost use Rattle.marc_types.specs.Order.{class_rank};

use marc_types::{Class, NoMemory, TryCopy};
use std::alloc::Global;
use std::cmp::Ordering;
use std::hash::{Hash, Hasher};

/// One field of one record: the record's class, the number of its key, and the field's place in it, from 0. Seats are ordered so.
#[derive(Clone, Copy, Debug)]
pub struct Seat {
    pub class: Class,
    pub number: u32,
    pub field: u32,
}

/// Seats, in no order that means anything.
pub type Seats = Vec<Seat>;

fn rank(class: Class) -> u8
    ensures { result ≡ class_rank class }
{
    match class {
        Class::Authority => 0,
        Class::Bibliographic => 1,
    }
}

impl TryCopy for Seat {
    fn copy(&self, _alloc: Global) -> Result<Seat, NoMemory> {
        Ok(*self)
    }
}

impl PartialEq for Seat {
    ghost use Rattle.numbering.specs.Seats.{same_seat, seat_Decides};
    ghost use Rattle.std.specs.Cmp.{decided, partial_equiv_from_equiv};

    ghost eq = { same_seat };

    ghost laws = { partial_equiv_from_equiv (decided same_seat seat_Decides) };

    #[tactic(auto, unfolding(crate::specs::Seats::same_seat))]
    fn eq(&self, other: &Seat) -> bool {
        rank(self.class) == rank(other.class)
            && (self.number == other.number && self.field == other.field)
    }
}

impl Eq for Seat {
    ghost use Rattle.numbering.specs.Seats.{same_seat, seat_Decides};
    ghost use Rattle.std.specs.Cmp.{decided};

    ghost laws = { decided same_seat seat_Decides };
}

impl PartialOrd for Seat {
    ghost use Rattle.numbering.specs.Seats.{seat_cmp, seat_cmp_total, seat_ties};
    ghost use Rattle.std.specs.Ordering.{as_partial_cmp};
    ghost use Rattle.std.specs.Cmp.{po};

    ghost partial_cmp = { as_partial_cmp seat_cmp };

    ghost laws = { po seat_cmp_total seat_ties };

    fn partial_cmp(&self, other: &Seat) -> Option<Ordering> {
        Some(self.cmp(other))
    }
}

impl Ord for Seat {
    ghost use Rattle.numbering.specs.Seats.{seat_cmp, seat_cmp_total, seat_ties};
    ghost use Rattle.std.proofs.Common.{refl};

    ghost cmp = { seat_cmp };

    ghost total = { seat_cmp_total };

    ghost matches_partial_cmp = { λ x y. refl };

    ghost matches_eq = { seat_ties };

    #[tactic(auto, unfolding(crate::specs::Seats::seat_cmp))]
    fn cmp(&self, other: &Seat) -> Ordering {
        rank(self.class)
            .cmp(&rank(other.class))
            .then_with(|| self.number.cmp(&other.number))
            .then_with(|| self.field.cmp(&other.field))
    }
}

impl Hash for Seat {
    ghost use Rattle.numbering.specs.Seats.{seat_writes, seat_writes_alike};

    ghost hash_input = { seat_writes };

    ghost respects_eq = { seat_writes_alike };

    #[tactic(auto, unfolding(crate::specs::Seats::seat_writes))]
    fn hash<H: Hasher>(&self, state: &mut H) {
        self.number.hash(state);
        self.field.hash(state);
    }
}
