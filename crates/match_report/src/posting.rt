use crate::number::Number;
use packed_keys::PackedKey;
use std::cmp::Ordering;
use std::marker::Model;

/// A number, and the key of a record that has it. They are ordered by the number, ISBNs before LCCNs and each by its bytes, and
/// then by the key.
#[derive(Drop)]
pub(crate) struct PostingRef<'a> {
    pub number: &'a Number,
    pub key: &'a PackedKey,
}

impl<'a> Model for PostingRef<'a> {
    ghost use Rattle.match_report.specs.Postings.{Posting};

    ghost Value = { Posting };

    ghost view = { λ h. record { number = h.number.now; key = h.key.now } };
}

impl PartialEq for PostingRef<'_> {
    ghost use Rattle.match_report.specs.Postings.{posting_cmp, posting_cmp_total};
    ghost use Rattle.std.specs.Ordering.{eq_by_cmp};
    ghost use Rattle.std.specs.Cmp.{eq_by_cmp_equiv, partial_equiv_from_equiv};

    ghost eq = { eq_by_cmp posting_cmp };

    ghost laws = { partial_equiv_from_equiv (eq_by_cmp_equiv posting_cmp_total) };

    fn eq(&self, other: &Self) -> bool {
        self.cmp(other).is_eq()
    }
}

impl Eq for PostingRef<'_> {
    ghost use Rattle.match_report.specs.Postings.{posting_cmp_total};
    ghost use Rattle.std.specs.Cmp.{eq_by_cmp_equiv};

    ghost laws = { eq_by_cmp_equiv posting_cmp_total };
}

impl PartialOrd for PostingRef<'_> {
    ghost use Rattle.match_report.specs.Postings.{posting_cmp, posting_cmp_total};
    ghost use Rattle.std.specs.Ordering.{as_partial_cmp};
    ghost use Rattle.std.specs.Cmp.{partial_order_from_total};

    ghost partial_cmp = { as_partial_cmp posting_cmp };

    ghost laws = { partial_order_from_total posting_cmp_total };

    fn partial_cmp(&self, other: &Self) -> Option<Ordering> {
        Some(self.cmp(other))
    }
}

impl Ord for PostingRef<'_> {
    ghost use Rattle.match_report.specs.Postings.{posting_cmp, posting_cmp_total};
    ghost use Rattle.std.proofs.Common.{refl};

    ghost cmp = { posting_cmp };

    ghost total = { posting_cmp_total };

    ghost matches_partial_cmp = { λ x y. refl };

    ghost matches_eq = { λ x y. refl };

    #[tactic(auto, unfolding(crate::specs::Postings::posting_cmp))]
    fn cmp(&self, other: &Self) -> Ordering {
        self.number
            .rank()
            .cmp(&other.number.rank())
            .then_with(|| self.number.text().cmp(other.number.text()))
            .then_with(|| self.key.cmp(other.key))
    }
}
