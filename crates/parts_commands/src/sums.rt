//! Numbers of parts, summed.
ghost use Rattle.std.specs.Prelude.{◌≡◌, ◌+◌, ◌*◌, ℕ};
ghost use Rattle.parts_commands.specs.Reading.{AreUpTo, greatest, numbers_of, with_part};
ghost use Rattle.parts_commands.specs.Reports.{IsBeyond};

use catalogue_parts::Totals;

/// The numbers of a whole. Those of any number of parts have room.
#[derive(Clone, Copy, Debug, PartialEq, Eq)]
pub(crate) struct Sums {
    pub authorities: u128,
    pub bibliographic: u128,
    pub linked: u128,
    pub ambiguous: u128,
    pub unlinked: u128,
}

/// The numbers of one report.
pub(crate) fn sums_of(totals: &Totals) -> Sums
    ensures numbers { numbers_of result ≡ totals.now }
    ensures most { AreUpTo greatest (numbers_of result) }
{
    Sums {
        authorities: u128::from(totals.authorities),
        bibliographic: u128::from(totals.bibliographic),
        linked: u128::from(totals.linked),
        ambiguous: u128::from(totals.ambiguous),
        unlinked: u128::from(totals.unlinked),
    }
}

/// Adds what a part counts beyond what stands in all of them.
pub(crate) fn add_part(sums: &mut Sums, shared: &Totals, part: &Totals)
    requires beyond { IsBeyond shared.now part.now }
    requires room { AreUpTo (greatest * greatest) (numbers_of sums.old) }
    ensures adds { numbers_of sums.new ≡ with_part (numbers_of sums.old) shared.now part.now }
    ensures most { (most : ℕ) → AreUpTo most (numbers_of sums.old) → AreUpTo (most + greatest) (numbers_of sums.new) }
{
    sums.authorities += u128::from(part.authorities - shared.authorities);
    sums.bibliographic += u128::from(part.bibliographic - shared.bibliographic);
    sums.linked += u128::from(part.linked - shared.linked);
    sums.ambiguous += u128::from(part.ambiguous - shared.ambiguous);
    sums.unlinked += u128::from(part.unlinked - shared.unlinked);
}
