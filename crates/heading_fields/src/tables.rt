ghost use Rattle.std.specs.Prelude.{◌≡◌};
ghost use Rattle.heading_fields.specs.Tables.{name_kind, subject_kind, any_kind, authority_kind_of, kind_of, is_subdividable, is_controlled, is_subdivision};
ghost use Rattle.marc_types.specs.declared.form.Kind.TheVariants.{Personal as personal, Corporate as corporate, Meeting as meeting, Title as title, Topical as topical};

use marc_types::{Class, Field, Kind, Tag};

/// The kind of a name or a title, by the last two characters of its tag.
fn kind_of_name(tag: &Tag) -> Option<Kind>
    ensures { result ≡ name_kind tag.now.b tag.now.c }
{
    match (tag.b, tag.c) {
        (b'0', b'0') => Some(Kind::Personal),
        (b'1', b'0') => Some(Kind::Corporate),
        (b'1', b'1') => Some(Kind::Meeting),
        (b'3', b'0') => Some(Kind::Title),
        _ => None,
    }
}

/// The kind of a heading that is neither a name nor a title.
fn kind_of_subject(tag: &Tag) -> Option<Kind>
    ensures { result ≡ subject_kind tag.now.b tag.now.c }
{
    match (tag.b, tag.c) {
        (b'4', b'8') => Some(Kind::Chronological),
        (b'5', b'0') => Some(Kind::Topical),
        (b'5', b'1') => Some(Kind::Geographic),
        (b'5', b'5') => Some(Kind::Genre),
        _ => None,
    }
}

#[tactic(auto, unfolding(crate::specs::Tables::any_kind))]
fn kind_by_ending(tag: &Tag) -> Option<Kind>
    ensures { result ≡ any_kind tag.now.b tag.now.c }
{
    kind_of_name(tag).or(kind_of_subject(tag))
}

/// The kind of an authority's heading (1XX) or see-from heading (4XX), where its tag is one of the eight kinds.
#[tactic(auto, unfolding(crate::specs::Tables::authority_kind_of))]
pub fn authority_kind(tag: &Tag) -> Option<Kind>
    ensures { result ≡ authority_kind_of tag.now }
{
    match tag.a {
        b'1' | b'4' => kind_by_ending(tag),
        _ => None,
    }
}

/// The kind of a field that is put under a heading in a record of that class: a 5XX of an authority record; a name or a
/// title in 1XX, 7XX or 8XX of a bibliographic record, or any of the eight kinds in 6XX with second indicator `0`.
#[tactic(auto, unfolding(crate::specs::Tables::kind_by_tag))]
pub fn heading_kind(field: &Field, class: Class) -> Option<Kind>
    ensures { result ≡ kind_of class field.now }
{
    let Field::Variable { tag, ind2, .. } = field else {
        return None;
    };
    match (class, tag.a) {
        (Class::Authority, b'5') => kind_by_ending(tag),
        (Class::Bibliographic, b'6') if *ind2 == b'0' => kind_by_ending(tag),
        (Class::Bibliographic, b'1' | b'7' | b'8') => kind_of_name(tag),
        _ => None,
    }
}

/// Whether a field with that tag, in a record of that class, takes subdivisions: a 1XX, 4XX or 5XX of an authority
/// record, or a 6XX of a bibliographic one.
#[tactic(auto, unfolding(crate::specs::Tables::is_subdividable))]
pub fn takes_subdivisions(tag: &Tag, class: Class) -> bool
    ensures { result ≡ is_subdividable class tag.now }
{
    match class {
        Class::Authority => matches!(tag.a, b'1' | b'4' | b'5'),
        Class::Bibliographic => tag.a == b'6',
    }
}

#[tactic(auto, unfolding(crate::specs::Tables::is_controlled))]
fn is_personal_code(code: u8) -> bool
    ensures { result ≡ is_controlled personal code }
{
    matches!(code, b'a'..=b'd' | b'f' | b'g' | b'k'..=b't')
}

#[tactic(auto, unfolding(crate::specs::Tables::is_controlled))]
fn is_corporate_code(code: u8) -> bool
    ensures { result ≡ is_controlled corporate code }
{
    matches!(code, b'a'..=b'd' | b'f' | b'g' | b'k'..=b'p' | b'r'..=b't')
}

#[tactic(auto, unfolding(crate::specs::Tables::is_controlled))]
fn is_meeting_code(code: u8) -> bool
    ensures { result ≡ is_controlled meeting code }
{
    matches!(
        code,
        b'a' | b'c'..=b'g' | b'k' | b'l' | b'n' | b'p' | b'q' | b's' | b't'
    )
}

#[tactic(auto, unfolding(crate::specs::Tables::is_controlled))]
fn is_title_code(code: u8) -> bool
    ensures { result ≡ is_controlled title code }
{
    matches!(code, b'a' | b'd' | b'f' | b'g' | b'k'..=b'p' | b'r'..=b't')
}

#[tactic(auto, unfolding(crate::specs::Tables::is_controlled))]
fn is_topical_code(code: u8) -> bool
    ensures { result ≡ is_controlled topical code }
{
    matches!(code, b'a' | b'b')
}

/// Whether subfields with that code belong to a heading of that kind.
#[tactic(auto, unfolding(crate::specs::Tables::is_controlled))]
pub fn is_controlled_code(code: u8, kind: Kind) -> bool
    ensures { result ≡ is_controlled kind code }
{
    match kind {
        Kind::Personal => is_personal_code(code),
        Kind::Corporate => is_corporate_code(code),
        Kind::Meeting => is_meeting_code(code),
        Kind::Title => is_title_code(code),
        Kind::Topical => is_topical_code(code),
        Kind::Chronological | Kind::Geographic | Kind::Genre => code == b'a',
    }
}

/// Whether the code is that of a form, general, chronological or geographic subdivision.
#[tactic(auto, unfolding(crate::specs::Tables::is_subdivision))]
pub(crate) fn is_subdivision_code(code: u8) -> bool
    ensures { result ≡ is_subdivision code }
{
    matches!(code, b'v' | b'x'..=b'z')
}
