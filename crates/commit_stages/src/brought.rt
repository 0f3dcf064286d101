//! The heading that an authority's entry brings, and which links to its key end with it.
ghost use Rattle.std.specs.Prelude.{◌≡◌, Some};
ghost use Rattle.std.specs.Option.{option_copied, option_map};
ghost use Rattle.marc_types.specs.declared.key.Class.TheVariants.{Authority as AnAuthority};
ghost use Rattle.entry_record.specs.Authority.{Linkable};
ghost use Rattle.catalogue_rules.specs.Settle.{arrival_of};
ghost use Rattle.catalogue_tables.specs.Following.{authority_brought};
ghost use Rattle.linking_laws.specs.Stages.{dropping_by};
ghost use Rattle.commit_stages.specs.Stages.{EndsLinksOf, dropping_to};
ghost use Rattle.commit_stages.specs.Brought.{brought_as};

use catalogue_tables::KnownAuthority;
use entry_record::Preparation;
use marc_types::Kind;

/// Which links to an authority end with its commit.
#[derive(Clone, Copy, Debug, PartialEq, Eq)]
pub(crate) enum Ending {
    Nothing,
    /// Those by the base.
    Bases,
    All,
}

/// What of an authority's heading decides which links to it stay.
#[derive(Clone, Copy, Debug)]
pub(crate) struct BroughtHeading {
    pub(crate) kind: Kind,
    pub(crate) bare: bool,
}

/// The heading of the authority that the entry brings, if fields can be linked to it.
pub(crate) fn brought_heading(item: &Preparation) -> Option<BroughtHeading>
    requires { item.now.class ≡ AnAuthority }
    ensures { result ≡ option_map brought_as (authority_brought (arrival_of item.now)) }
{
    if item.is_deletion() {
        return None;
    }
    match item.established() {
        Some(form) => Some(BroughtHeading {
            kind: form.kind,
            bare: item.has_bare_heading(),
        }),
        None => None,
    }
}

/// Which links end once the entry's record is in its place: all where it brings no authority, or one of another kind than the one
/// that was known; those by the base where its heading has a subdivision.
pub(crate) fn links_that_end(known: Option<&KnownAuthority>, item: &Preparation) -> Ending
    requires { item.now.class ≡ AnAuthority }
    ensures { EndsLinksOf (option_copied known.entry) item.now result }
{
    let Some(heading) = brought_heading(item) else {
        return Ending::All;
    };
    match known {
        Some(known) => ending_between(known, heading),
        None => Ending::Nothing,
    }
}

// Which links end where an authority takes another's place.
fn ending_between(known: &KnownAuthority, heading: BroughtHeading) -> Ending
    ensures { (before now : Linkable) → known.now.kind ≡ before.kind → heading ≡ brought_as now
        → dropping_to result ≡ dropping_by (Some before) (Some now) }
{
    if known.kind != heading.kind {
        Ending::All
    } else if heading.bare {
        Ending::Nothing
    } else {
        Ending::Bases
    }
}
