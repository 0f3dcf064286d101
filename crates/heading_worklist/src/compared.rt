//! What counting and ordering look at of open headings.
ghost use Rattle.std.specs.Prelude.{◌≡◌};
ghost use Rattle.marc_types.specs.Order.{class_rank, place_cmp};
ghost use Rattle.heading_worklist.specs.Counts.{heading_cmp};

use marc_types::{Class, Form, Key};
use std::cmp::Ordering;
use std::marker::Model;
use std::rc::Rc;

/// An open heading: whether it is ambiguous, its full form and its base form, and its place. Headings share their forms.
#[derive(Drop)]
pub struct Compared<'a> {
    pub ambiguous: bool,
    pub full: Rc<Form>,
    pub base: Rc<Form>,
    pub class: Class,
    pub key: &'a Key,
    pub field: u32,
}

impl<'a> Model for Compared<'a> {
    ghost use Rattle.marc_types.specs.declared.key.Place.{Place};
    ghost use Rattle.heading_worklist.specs.Counts.{Compared};

    ghost Value = { Compared };

    ghost view = { λ x. record {
      ambiguous = x.ambiguous;
      full = x.full.value;
      base = x.base.value;
      place = record { class = x.class; key = x.key.now; field = x.field };
    } };
}

fn rank(class: Class) -> u8
    ensures { result ≡ class_rank class }
{
    match class {
        Class::Authority => 0,
        Class::Bibliographic => 1,
    }
}

impl Compared<'_> {
    #[tactic(auto, unfolding(marc_types::specs::Order::place_cmp))]
    fn place_order(&self, other: &Self) -> Ordering
        ensures { result ≡ place_cmp self.now.place other.now.place }
    {
        match rank(self.class).cmp(&rank(other.class)) {
            Ordering::Equal => match self.key.cmp(other.key) {
                Ordering::Equal => self.field.cmp(&other.field),
                order => order,
            },
            order => order,
        }
    }

    /// By the full form, unlinked before ambiguous; then by the class, the key and the field.
    #[tactic(auto, unfolding(crate::specs::Counts::heading_cmp))]
    pub(crate) fn order(&self, other: &Self) -> Ordering
        ensures { result ≡ heading_cmp self.now other.now }
    {
        match self.full.as_ref().cmp(other.full.as_ref()) {
            Ordering::Equal => match self.ambiguous.cmp(&other.ambiguous) {
                Ordering::Equal => self.place_order(other),
                order => order,
            },
            order => order,
        }
    }
}
