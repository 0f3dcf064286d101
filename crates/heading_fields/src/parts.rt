ghost use Rattle.std.specs.Prelude.{◌≡◌, false, ◌≤◌, ◌++◌, IfOk, OnOk, filter, length, position};
ghost use Rattle.marc_types.specs.Valid.{field_size, subfields_size};
ghost use Rattle.heading_fields.specs.Parts.{before, onward, is_dividing, is_subdivided, region, behind, is_part, part, base_part, full_part};
ghost use Rattle.marc_types.specs.Fields.{subfields_of};

use crate::tables::{is_controlled_code, is_subdivision_code, takes_subdivisions};
use marc_types::{Class, Field, Kind, NoMemory, Subfield, Subfields, TryCopy};
use std::alloc::Global;

/// Whether the field has a subdivision: a subfield `$v`, `$x`, `$y` or `$z`. A heading that has none is bare.
pub fn has_subdivision(field: &Field) -> bool
    ensures { result ≡ is_subdivided (subfields_of field.now) }
{
    field
        .subfields()
        .iter()
        .any(|subfield| is_subdivision_code(subfield.code))
}

fn first_subdivision(subfields: &[Subfield]) -> Option<usize>
    ensures { result ≡ position is_dividing subfields.now }
{
    subfields
        .iter()
        .position(|subfield| is_subdivision_code(subfield.code))
}

/// The subfields among which a part may stand, and those behind them: a full part may stand anywhere, a base part before
/// the first subdivision.
#[tactic(auto, using(crate::proofs::Slices::before_at, crate::proofs::Slices::onward_at, crate::proofs::Slices::at_within))]
pub(crate) fn split_region(subfields: &[Subfield], whole: bool) -> (&[Subfield], &[Subfield])
    ensures region { result.0.now ≡ region whole subfields.now }
    ensures behind { result.1.now ≡ behind whole subfields.now }
{
    if whole {
        subfields.split_at(subfields.len())
    } else {
        let place = first_subdivision(subfields).unwrap_or(subfields.len());
        subfields.split_at(place)
    }
}

/// The subfields among which the base part or the full part of a heading may stand.
pub fn part_region(subfields: &[Subfield], whole: bool) -> &[Subfield]
    ensures { result.now ≡ region whole subfields.now }
{
    let (region, _) = split_region(subfields, whole);
    region
}

/// Whether a subfield belongs to the base part or the full part of a heading, where it stands among the part's subfields.
#[tactic(auto, unfolding(crate::specs::Parts::is_part))]
pub fn belongs(subfield: &Subfield, kind: Kind, whole: bool) -> bool
    ensures { result ≡ is_part whole kind subfield.now }
{
    is_controlled_code(subfield.code, kind) || (whole && is_subdivision_code(subfield.code))
}

fn first_of_part(region: &[Subfield], kind: Kind, whole: bool) -> Option<usize>
    ensures { result ≡ position (is_part whole kind) region.now }
{
    region
        .iter()
        .position(|subfield| belongs(subfield, kind, whole))
}

/// The subfields before the first of the part, and the others.
#[tactic(auto, using(crate::proofs::Slices::before_at, crate::proofs::Slices::onward_at, crate::proofs::Slices::at_within))]
pub(crate) fn split_part(region: &[Subfield], kind: Kind, whole: bool) -> (&[Subfield], &[Subfield])
    ensures before { result.0.now ≡ before (is_part whole kind) region.now }
    ensures onward { result.1.now ≡ onward (is_part whole kind) region.now }
{
    let place = first_of_part(region, kind, whole).unwrap_or(region.len());
    region.split_at(place)
}

/// How many of the subfields belong to the part.
pub fn part_count(region: &[Subfield], kind: Kind, whole: bool) -> usize
    ensures { result ≤ length region.now }
{
    region
        .iter()
        .filter(|subfield| belongs(subfield, kind, whole))
        .count()
}

/// The length of the base part: two and the bytes of the text, for each subfield.
#[tactic(auto, using(crate::proofs::Slices::size_region), unfolding(crate::specs::Parts::part))]
pub fn heading_len(field: &Field, kind: Kind) -> u64
    requires { field_size field.now ≤ 1000000 }
    ensures { result ≡ subfields_size (base_part kind field.now) }
{
    let (region, _) = split_region(field.subfields(), false);
    part_len(region, kind)
}

fn part_len(region: &[Subfield], kind: Kind) -> u64
    requires { subfields_size region.now ≤ 1000000 }
    ensures { result ≡ subfields_size (filter (is_part false kind) region.now) }
{
    let mut len = 0;
    for subfield in region {
        if belongs(subfield, kind, false) {
            len += 2 + subfield.text.len() as u64;
        }
    }
    len
}

/// Appends the subfields that belong to the part.
pub(crate) fn append_part(
    alloc: Global,
    out: &mut Vec<Subfield>,
    region: &[Subfield],
    kind: Kind,
    whole: bool,
) -> Result<(), NoMemory>
    ensures { OnOk result (out.new.items ≡ out.old.items ++ filter (is_part whole kind) region.now) }
{
    for subfield in region {
        if belongs(subfield, kind, whole) {
            out.push(subfield.copy(alloc)?)?;
        }
    }
    Ok(())
}

#[tactic(auto, unfolding(crate::specs::Parts::part))]
fn part_of(
    alloc: Global,
    subfields: &[Subfield],
    kind: Kind,
    whole: bool,
) -> Result<Subfields, NoMemory>
    ensures { IfOk result (λ made. made ≡ part whole kind subfields.now) }
{
    let (region, _) = split_region(subfields, whole);
    let mut out = Vec::with_capacity(alloc, part_count(region, kind, whole))?;
    append_part(alloc, &mut out, region, kind, whole)?;
    Ok(Subfields::from_vec(out))
}

/// The base part of a field: the subfields with a controlled code of the kind that stand before its first subdivision.
pub fn controlled(alloc: Global, field: &Field, kind: Kind) -> Result<Subfields, NoMemory>
    ensures { IfOk result (λ made. made ≡ base_part kind field.now) }
{
    part_of(alloc, field.subfields(), kind, false)
}

/// The full part of a field: the subfields with a controlled code of the kind or the code of a subdivision, in their
/// order. A field that takes no subdivisions has its base part as its full part.
pub fn full(alloc: Global, field: &Field, kind: Kind, class: Class) -> Result<Subfields, NoMemory>
    ensures { IfOk result (λ made. made ≡ full_part kind class field.now) }
{
    let whole = takes_subdivisions(field.tag(), class);
    part_of(alloc, field.subfields(), kind, whole)
}
