//! How many headings stand in each way.
ghost use Rattle.std.specs.Prelude.{◌≡◌, ◌+◌, IfOk};
ghost use Rattle.worklist_page.specs.Shares.{no_shares, with_standing};

use catalogue_tables::Standing;
use marc_types::NoMemory;

/// How many headings are linked, ambiguous and unlinked.
#[derive(Clone, Copy, Debug, PartialEq, Eq)]
pub struct Shares {
    pub linked: u64,
    pub ambiguous: u64,
    pub unlinked: u64,
}

/// One more. So many fields are in no memory that there would be no room for it.
fn one_more(count: u64) -> Result<u64, NoMemory>
    ensures { IfOk result (λ more. more ≡ count + 1) }
{
    if count == u64::MAX {
        return Err(NoMemory);
    }
    Ok(count + 1)
}

impl Shares {
    /// Nothing counted.
    pub fn none() -> Shares
        ensures { result ≡ no_shares }
    {
        Shares {
            linked: 0,
            ambiguous: 0,
            unlinked: 0,
        }
    }

    /// With one more field, which stands so.
    pub(crate) fn with(self, standing: &Standing) -> Result<Shares, NoMemory>
        ensures { IfOk result (λ more. more ≡ with_standing standing.now self) }
    {
        let Shares {
            linked,
            ambiguous,
            unlinked,
        } = self;
        match standing {
            Standing::Linked => Ok(Shares {
                linked: one_more(linked)?,
                ambiguous,
                unlinked,
            }),
            Standing::Ambiguous(_) => Ok(Shares {
                linked,
                ambiguous: one_more(ambiguous)?,
                unlinked,
            }),
            Standing::Unlinked => Ok(Shares {
                linked,
                ambiguous,
                unlinked: one_more(unlinked)?,
            }),
            Standing::NoHeading => Ok(self),
        }
    }
}
