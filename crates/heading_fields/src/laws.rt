//! Laws of rewriting and unlinking: each is the contract of a function that does nothing.
ghost use Rattle.std.specs.Prelude.{◌≡◌, ◌≢◌, ◌+◌, ◌≤◌, [], length, false, IsTrue};
ghost use Rattle.std.specs.List.{list_any};
ghost use Rattle.marc_types.specs.Valid.{is_field, is_text, field_size, subfields_size};
ghost use Rattle.heading_fields.specs.Tables.{kind_of};
ghost use Rattle.heading_fields.specs.Parts.{written_length, part, base_part, field_part, field_outside, reaches};
ghost use Rattle.marc_types.specs.Fields.{tag_of, subfields_of};
ghost use Rattle.heading_fields.specs.Numbers.{is_naming, unnumbered, is_blankless};
ghost use Rattle.heading_fields.specs.Rewriting.{rewriting, unlinking};

use marc_types::{Class, Field, Key, Kind};

/// Rewriting a field twice is rewriting it once.
#[tactic(auto, using(crate::proofs::Fieldlaws::rewriting_twice))]
pub fn rewriting_twice_is_once(
    field: &Field,
    kind: Kind,
    class: Class,
    heading: &Field,
    key: &Key,
    whole: bool,
)
    requires blankless { IsTrue (is_blankless key.now) }
    requires heading_part { base_part kind heading.now ≢ [] }
    ensures { let once = rewriting field.now kind class heading.now key.now whole in
        rewriting once kind class heading.now key.now whole ≡ once }
{}

/// A rewritten field has the heading's part as its own part, and also the heading's base part as its own.
#[tactic(auto, using(crate::proofs::Fieldlaws::field_part_rewriting, crate::proofs::Fieldlaws::base_part_rewriting))]
pub fn rewritten_part_is_the_headings(
    field: &Field,
    kind: Kind,
    class: Class,
    heading: &Field,
    key: &Key,
    whole: bool,
)
    requires { base_part kind field.now ≢ [] }
    ensures own { field_part whole kind class (rewriting field.now kind class heading.now key.now whole)
        ≡ part (reaches whole class field.now) kind (subfields_of heading.now) }
    ensures base { base_part kind (rewriting field.now kind class heading.now key.now whole) ≡ base_part kind heading.now }
{}

/// Rewriting keeps what stands outside the part, but for the `$0` of the key. It keeps the tag and the kind.
#[tactic(auto, using(crate::proofs::Fieldlaws::field_outside_rewriting, crate::proofs::Fieldlaws::tag_of_rewriting, crate::proofs::Fieldlaws::kind_of_rewriting))]
pub fn rewriting_keeps_the_rest(
    field: &Field,
    kind: Kind,
    class: Class,
    heading: &Field,
    key: &Key,
    whole: bool,
)
    requires { IsTrue (is_blankless key.now) }
    ensures outside { unnumbered key.now (field_outside whole kind class (rewriting field.now kind class heading.now key.now whole))
        ≡ unnumbered key.now (field_outside whole kind class field.now) }
    ensures tag { tag_of (rewriting field.now kind class heading.now key.now whole) ≡ tag_of field.now }
    ensures kind { kind_of class (rewriting field.now kind class heading.now key.now whole) ≡ kind_of class field.now }
{}

/// The length of a rewritten field is at most 3, what stands outside its part without the `$0` that name the key, the
/// length of the heading's part, and 84: two for the `$0`, two for the parentheses, 16 for the code, 64 for the number.
#[tactic(auto, using(crate::proofs::Fieldlaws::written_length_rewriting))]
pub fn rewritten_length_is_bounded(
    field: &Field,
    kind: Kind,
    class: Class,
    heading: &Field,
    key: &Key,
    whole: bool,
)
    requires field_part { base_part kind field.now ≢ [] }
    requires code { length key.now.code ≤ 16 }
    requires number { length key.now.number ≤ 64 }
    ensures { written_length (rewriting field.now kind class heading.now key.now whole)
        ≤ 3 + subfields_size (unnumbered key.now (field_outside whole kind class field.now))
        + subfields_size (part (reaches whole class field.now) kind (subfields_of heading.now)) + 84 }
{}

/// A rewritten field is larger than it was by the heading's part and 84 at most.
#[tactic(auto, using(crate::proofs::Fieldlaws::field_size_rewriting))]
pub fn rewritten_size_is_bounded(
    field: &Field,
    kind: Kind,
    class: Class,
    heading: &Field,
    key: &Key,
    whole: bool,
)
    requires code { length key.now.code ≤ 16 }
    requires number { length key.now.number ≤ 64 }
    ensures { field_size (rewriting field.now kind class heading.now key.now whole)
        ≤ field_size field.now + subfields_size (part (reaches whole class field.now) kind (subfields_of heading.now)) + 84 }
{}

/// A rewritten field is a field as records have them.
#[tactic(auto, using(crate::proofs::Fieldlaws::is_field_rewriting))]
pub fn rewritten_field_is_valid(
    field: &Field,
    kind: Kind,
    class: Class,
    heading: &Field,
    key: &Key,
    whole: bool,
)
    requires valid { IsTrue (is_field field.now) }
    requires valid_heading { IsTrue (is_field heading.now) }
    requires code { IsTrue (is_text key.now.code) }
    requires number { IsTrue (is_text key.now.number) }
    ensures { IsTrue (is_field (rewriting field.now kind class heading.now key.now whole)) }
{}

/// After unlinking no `$0` names the key. The part, the tag and the kind stay.
#[tactic(auto, using(crate::proofs::Fieldlaws::unlinking_none, crate::proofs::Fieldlaws::field_part_unlinking, crate::proofs::Fieldlaws::tag_of_unlinking, crate::proofs::Fieldlaws::kind_of_unlinking))]
pub fn unlinking_ends_the_naming(field: &Field, key: &Key, kind: Kind, class: Class, whole: bool)
    ensures none { list_any (is_naming key.now) (subfields_of (unlinking field.now key.now)) ≡ false }
    ensures same_part { field_part whole kind class (unlinking field.now key.now) ≡ field_part whole kind class field.now }
    ensures tag { tag_of (unlinking field.now key.now) ≡ tag_of field.now }
    ensures kind { kind_of class (unlinking field.now key.now) ≡ kind_of class field.now }
{}

/// An unlinked field is a field as records have them, and no larger than it was.
#[tactic(auto, using(crate::proofs::Fieldlaws::is_field_unlinking, crate::proofs::Fieldlaws::field_size_unlinking))]
pub fn unlinked_field_is_valid(field: &Field, key: &Key)
    requires { IsTrue (is_field field.now) }
    ensures valid { IsTrue (is_field (unlinking field.now key.now)) }
    ensures size { field_size (unlinking field.now key.now) ≤ field_size field.now }
{}
