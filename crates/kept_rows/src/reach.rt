//! The longest that a heading field can become.
ghost use Rattle.std.specs.Prelude.{◌≡◌, ◌≤◌, false, filter};
ghost use Rattle.std.specs.Option.{option_map_or};
ghost use Rattle.marc_types.specs.Fields.{subfields_of};
ghost use Rattle.marc_types.specs.Valid.{field_size, subfields_size};
ghost use Rattle.heading_fields.specs.Numbers.{is_naming};
ghost use Rattle.heading_fields.specs.Parts.{is_part, part, reaches};
ghost use Rattle.catalogue_rules.specs.State.{kept_field};
ghost use Rattle.catalogue_rules.specs.Valid.{other_subfields, heading_reach};

use heading_fields::{belongs, is_number_of, part_region, takes_subdivisions};
use marc_types::{Class, Field, Kind, Subfield, Tie, TiedKey};

/// Two indicators and a terminator.
const FRAME_LEN: u64 = 3;

/// The longest heading that a field is put under.
const LONGEST_HEADING: u64 = 512;

/// A `$0` of the longest code and number.
const NUMBER_LEN: u64 = 84;

/// The length of the subfields of a region that belong to the part: two and the bytes of the text, for each.
fn part_len(region: &[Subfield], kind: Kind, whole: bool) -> u64
    requires { subfields_size region.now ≤ 1000000 }
    ensures { result ≡ subfields_size (filter (is_part whole kind) region.now) }
{
    let mut len = 0;
    for subfield in region {
        if belongs(subfield, kind, whole) {
            len += 2 + subfield.text.len() as u64;
        }
    }
    len
}

fn names(subfield: &Subfield, key: &Option<TiedKey>) -> bool
    ensures { result ≡ option_map_or (λ k. is_naming k subfield.now) key.now false }
{
    match key {
        Some(tied) => is_number_of(subfield, tied.key()),
        None => false,
    }
}

/// The length of the subfields without each `$0` that names the key.
fn others_len(subfields: &[Subfield], key: &Option<TiedKey>) -> u64
    requires { subfields_size subfields.now ≤ 1000000 }
    ensures { result ≡ subfields_size (other_subfields key.now subfields.now) }
{
    let mut len = 0;
    for subfield in subfields {
        if !names(subfield, key) {
            len += 2 + subfield.text.len() as u64;
        }
    }
    len
}

/// The longest that a heading field of that kind can become. What stands outside its part is what is left of the subfields without the
/// part, since no subfield of a part names a key.
#[tactic(auto, using(crate::proofs::Outside::outside_left, crate::proofs::Outside::region_small, crate::proofs::Outside::subfields_small, crate::proofs::Outside::others_small), unfolding(heading_fields::specs::Parts::part))]
pub(crate) fn heading_reach(field: &Field, tie: &Tie, class: Class, kind: Kind) -> u64
    requires { field_size field.now ≤ 1000000 }
    ensures { result ≡ heading_reach class (kept_field field.now tie.now) kind }
{
    let whole = tie.whole && takes_subdivisions(field.tag(), class);
    let subfields = field.subfields();
    let part = part_len(part_region(subfields, whole), kind, whole);
    let outside = others_len(subfields, &tie.key) - part;
    FRAME_LEN + outside + part.max(LONGEST_HEADING) + NUMBER_LEN
}
