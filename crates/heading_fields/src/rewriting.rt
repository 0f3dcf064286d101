ghost use Rattle.std.specs.Prelude.{◌≡◌, [], ◌∷◌, ◌++◌, not, IfOk, OnOk, filter};
ghost use Rattle.heading_fields.specs.Parts.{is_part, part};
ghost use Rattle.heading_fields.specs.Numbers.{unnumbered, number_of};
ghost use Rattle.heading_fields.specs.Rewriting.{rewritten_indicator, rewritten_subfields, rewriting, unlinking};

use crate::numbers::{append_unnumbered, is_number_of, number_of_key};
use crate::parts::{append_part, belongs, part_count, split_part, split_region};
use crate::tables::takes_subdivisions;
use marc_types::{Class, Field, Key, Kind, NoMemory, Subfield, Subfields, TryCopy};
use std::alloc::Global;

/// With a name the first indicator becomes the heading's.
fn first_indicator(kind: Kind, heading: &Field, own: u8) -> u8
    ensures { result ≡ rewritten_indicator kind heading.now own }
{
    match (kind, heading) {
        (Kind::Personal | Kind::Corporate | Kind::Meeting, Field::Variable { ind1, .. }) => *ind1,
        _ => own,
    }
}

/// Appends the subfields that neither belong to the part nor are a `$0` naming the key.
#[tactic(auto, using(crate::proofs::Lists::outside_more))]
fn append_outside(
    alloc: Global,
    out: &mut Vec<Subfield>,
    region: &[Subfield],
    kind: Kind,
    whole: bool,
    key: &Key,
) -> Result<(), NoMemory>
    ensures { OnOk result (out.new.items
        ≡ out.old.items ++ unnumbered key.now (filter (λ s. not (is_part whole kind s)) region.now)) }
{
    for subfield in region {
        if !belongs(subfield, kind, whole) && !is_number_of(subfield, key) {
            out.push(subfield.copy(alloc)?)?;
        }
    }
    Ok(())
}

/// How many of the subfields aren't a `$0` naming the key.
fn unnumbered_count(subfields: &[Subfield], key: &Key) -> usize {
    subfields
        .iter()
        .filter(|subfield| !is_number_of(subfield, key))
        .count()
}

/// Appends the heading's part and the `$0` of the key.
#[tactic(auto, unfolding(crate::specs::Parts::part))]
fn append_heading(
    alloc: Global,
    out: &mut Vec<Subfield>,
    heading: &[Subfield],
    kind: Kind,
    whole: bool,
    key: &Key,
) -> Result<(), NoMemory>
    ensures { OnOk result (out.new.items ≡ out.old.items ++ part whole kind heading.now ++ number_of key.now ∷ []) }
{
    let (standing, _) = split_region(heading, whole);
    append_part(alloc, out, standing, kind, whole)?;
    out.push(number_of_key(alloc, key)?)?;
    Ok(())
}

/// How many subfields a rewritten field has.
fn rewritten_count(
    subfields: &[Subfield],
    kind: Kind,
    heading: &[Subfield],
    key: &Key,
    whole: bool,
) -> usize {
    let (standing, _) = split_region(heading, whole);
    let (region, _) = split_region(subfields, whole);
    let kept = unnumbered_count(subfields, key).saturating_sub(part_count(region, kind, whole));
    kept.saturating_add(part_count(standing, kind, whole))
        .saturating_add(1)
}

/// The subfields of a rewritten field. Each text that it keeps is copied once.
fn rewritten(
    alloc: Global,
    subfields: &[Subfield],
    kind: Kind,
    heading: &[Subfield],
    key: &Key,
    whole: bool,
) -> Result<Subfields, NoMemory>
    ensures { IfOk result (λ made. made ≡ rewritten_subfields whole kind key.now heading.now subfields.now) }
{
    let (region, behind) = split_region(subfields, whole);
    let (front, onward) = split_part(region, kind, whole);
    let room = rewritten_count(subfields, kind, heading, key, whole);
    let mut out = Vec::with_capacity(alloc, room)?;
    append_unnumbered(alloc, &mut out, front, key)?;
    append_heading(alloc, &mut out, heading, kind, whole, key)?;
    append_outside(alloc, &mut out, onward, kind, whole, key)?;
    append_unnumbered(alloc, &mut out, behind, key)?;
    Ok(Subfields::from_vec(out))
}

/// The field with the heading of the authority that has that key. In the place of the field's part come the heading's
/// part, byte for byte, and one `$0` with the key's text; each old `$0` that names the key is dropped, and all else
/// stays. With a personal, corporate or meeting name the first indicator becomes the heading's.
///
/// The part is the full part where `whole` says so and the field takes subdivisions, else the base part. A control field
/// stays as it is.
#[tactic(auto, unfolding(crate::specs::Rewriting::rewriting))]
pub fn rewrite(
    alloc: Global,
    field: &Field,
    kind: Kind,
    class: Class,
    heading: &Field,
    key: &Key,
    whole: bool,
) -> Result<Field, NoMemory>
    ensures { IfOk result (λ made. made ≡ rewriting field.now kind class heading.now key.now whole) }
{
    match field {
        Field::Control { .. } => field.copy(alloc),
        Field::Variable {
            tag,
            ind1,
            ind2,
            subs,
        } => {
            let whole = whole && takes_subdivisions(tag, class);
            Ok(Field::Variable {
                tag: *tag,
                ind1: first_indicator(kind, heading, *ind1),
                ind2: *ind2,
                subs: rewritten(
                    alloc,
                    subs.as_slice(),
                    kind,
                    heading.subfields(),
                    key,
                    whole,
                )?,
            })
        }
    }
}

/// The subfields without each `$0` that names the key.
fn unlinked(alloc: Global, subfields: &[Subfield], key: &Key) -> Result<Subfields, NoMemory>
    ensures { IfOk result (λ made. made ≡ unnumbered key.now subfields.now) }
{
    let mut out = Vec::with_capacity(alloc, unnumbered_count(subfields, key))?;
    append_unnumbered(alloc, &mut out, subfields, key)?;
    Ok(Subfields::from_vec(out))
}

/// The field without each `$0` that names the key. All else stays.
#[tactic(auto, unfolding(crate::specs::Rewriting::unlinking))]
pub fn unlink(alloc: Global, field: &Field, key: &Key) -> Result<Field, NoMemory>
    ensures { IfOk result (λ made. made ≡ unlinking field.now key.now) }
{
    match field {
        Field::Control { .. } => field.copy(alloc),
        Field::Variable {
            tag,
            ind1,
            ind2,
            subs,
        } => Ok(Field::Variable {
            tag: *tag,
            ind1: *ind1,
            ind2: *ind2,
            subs: unlinked(alloc, subs.as_slice(), key)?,
        }),
    }
}
