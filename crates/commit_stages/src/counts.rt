//! How the heading fields of a record stand, in numbers.
ghost use Rattle.std.specs.Prelude.{◌≡◌, ◌+◌, cond};
ghost use Rattle.commit_stages.specs.Counted.{HasRoom, stands_ambiguous, stands_linked, stands_unlinked};

use crate::settled::Stands;

/// How many heading fields of a record are linked, ambiguous, and neither.
#[derive(Clone, Copy, Debug, PartialEq, Eq)]
pub(crate) struct HeadingCounts {
    pub(crate) linked: u32,
    pub(crate) ambiguous: u32,
    pub(crate) unlinked: u32,
}

/// The numbers with one field more.
pub(crate) fn counted(counts: HeadingCounts, stands: Stands) -> HeadingCounts
    requires { HasRoom counts }
    ensures linked { result.linked ≡ counts.linked + cond (stands_linked stands) 1 0 }
    ensures ambiguous { result.ambiguous ≡ counts.ambiguous + cond (stands_ambiguous stands) 1 0 }
    ensures unlinked { result.unlinked ≡ counts.unlinked + cond (stands_unlinked stands) 1 0 }
{
    match stands {
        Stands::Linked => HeadingCounts {
            linked: counts.linked + 1,
            ..counts
        },
        Stands::Ambiguous => HeadingCounts {
            ambiguous: counts.ambiguous + 1,
            ..counts
        },
        Stands::Unlinked => HeadingCounts {
            unlinked: counts.unlinked + 1,
            ..counts
        },
        Stands::NoHeading => counts,
    }
}
