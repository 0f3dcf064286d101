//! Which records a catalogue takes.
ghost use Rattle.std.specs.Prelude.{◌≡◌, ◌≤◌, ◌+◌, false, None, length, map, is_some, IfOk, IfErr, if◌then◌else◌};
ghost use Rattle.std.specs.List.{list_any};
ghost use Rattle.std.specs.Option.{option_copied, option_map_or};
ghost use Rattle.std.specs.Prelude.{◌&&◌};
ghost use Rattle.marc_types.specs.Valid.{field_size, fields_size};
ghost use Rattle.iso2709_record.specs.Written.{field_length};
ghost use Rattle.entry_record.specs.Identity.{class_of};
ghost use Rattle.entry_record.specs.Authority.{is_heading, is_see_from, heading_of};
ghost use Rattle.entry_record.specs.Admission.{is_living_authority, is_too_long, has_long_heading, has_no_room, admission_refusal};
ghost use Rattle.entry_record.specs.Headings.{heading_forms};
ghost use Rattle.entry_record.specs.Taking.{heading_refusal, IsExamined};
ghost use Rattle.entry_record.specs.Answers.{IsRefusalOf};

use crate::headings::{HeadingForms, Headings, heading_forms};
use crate::identity::{class_of, is_deletion, is_known_type, key_of};
use heading_fields::{authority_kind, heading_len};
use iso2709_record::field_len;
use marc_types::{Class, Field, Key, Leader, NoMemory, Record, RecordFault, Refusal, Text};
use std::alloc::Global;

/// The longest heading that an authority may have or be found under: two bytes and the text, for each subfield.
pub(crate) const LONGEST_HEADING: u64 = 512;

/// What a heading field may grow by, once it is under an authority: its heading and a `$0`.
const GROWTH: u64 = 600;

/// The greatest lengths that a written record and its fields have room for.
const MOST_RECORD_LEN: u64 = 99_999;

const MOST_FIELD_LEN: u64 = 9_999;

/// A leader, the directory's terminator and the record's.
const FRAME_LEN: u64 = 26;

const DIRECTORY_ENTRY_LEN: u64 = 12;

/// What admission learns of a record that it takes.
#[derive(Debug, Drop)]
pub(crate) struct Examined {
    pub(crate) key: Key,
    pub(crate) headings: Headings,
}

fn is_living_authority(leader: &Leader) -> bool
    ensures { result ≡ is_living_authority leader.now }
{
    leader.rtype == b'z' && !is_deletion(leader)
}

fn is_heading(field: &Field) -> bool
    ensures { result ≡ is_heading field.now }
{
    field.tag().a == b'1'
}

pub(crate) fn is_see_from(field: &Field) -> bool
    ensures { result ≡ is_see_from field.now }
{
    field.tag().a == b'4'
}

/// The heading of an authority record: its first 1XX.
pub(crate) fn heading(fields: &[Field]) -> Option<&Field>
    ensures { option_copied result ≡ heading_of fields.now }
{
    for field in fields {
        if is_heading(field) {
            return Some(field);
        }
    }
    None
}

fn is_too_long(field: &Field) -> bool
    requires { field_size field.now ≤ 1000000 }
    ensures { result ≡ is_too_long field.now }
{
    match authority_kind(field.tag()) {
        Some(kind) => heading_len(field, kind) > LONGEST_HEADING,
        None => false,
    }
}

#[tactic(auto, using(crate::proofs::Growing::heading_small))]
fn has_long_first(fields: &[Field]) -> bool
    requires { fields_size fields.now ≤ 1000000 }
    ensures { result ≡ option_map_or is_too_long (heading_of fields.now) false }
{
    match heading(fields) {
        Some(field) => is_too_long(field),
        None => false,
    }
}

fn has_long_see_from(fields: &[Field]) -> bool
    requires { fields_size fields.now ≤ 1000000 }
    ensures { result ≡ list_any (λ f. is_see_from f && is_too_long f) fields.now }
{
    for field in fields {
        if is_see_from(field) && is_too_long(field) {
            return true;
        }
    }
    false
}

#[tactic(auto, unfolding(crate::specs::Admission::has_long_heading))]
fn has_long_heading(fields: &[Field]) -> bool
    requires { fields_size fields.now ≤ 1000000 }
    ensures { result ≡ has_long_heading fields.now }
{
    has_long_first(fields) || has_long_see_from(fields)
}

#[tactic(auto, using(iso2709_record::proofs::Lengths::record_bounds))]
fn heading_refusal(rec: &Record) -> Option<Refusal>
    ensures { result ≡ heading_refusal rec.now.leader rec.now.fields }
{
    let fields = rec.fields.as_slice();
    if !is_living_authority(&rec.leader) {
        None
    } else if heading(fields).is_none() {
        Some(Refusal::NoHeading)
    } else if has_long_heading(fields) {
        Some(Refusal::HeadingTooLong)
    } else {
        None
    }
}

#[tactic(auto, using(iso2709_record::proofs::Lengths::field_length_bound))]
fn grown_len(field: &Field, forms: &Option<HeadingForms>) -> u64
    requires { field_size field.now ≤ 1000000 }
    ensures { result ≡ (if is_some forms.now then field_length field.now + 600 else field_length field.now) }
{
    match forms {
        Some(_) => field_len(field) + GROWTH,
        None => field_len(field),
    }
}

/// Whether the record, or one of its fields, can become too long.
fn has_no_room(fields: &[Field], headings: &[Option<HeadingForms>], class: Class) -> bool
    requires few { length fields.now ≤ 8331 }
    requires small { fields_size fields.now ≤ 1000000 }
    requires forms { headings.now ≡ map (heading_forms class) fields.now }
    ensures { result ≡ has_no_room class fields.now }
{
    let mut len = FRAME_LEN;
    for (place, field) in fields.iter().enumerate() {
        let grown = grown_len(field, &headings[place]);
        if grown > MOST_FIELD_LEN {
            return true;
        }
        len += DIRECTORY_ENTRY_LEN + grown;
    }
    len > MOST_RECORD_LEN
}

/// The key of a record and the forms of its heading fields, unless a catalogue doesn't take it. It answers the first reason: another
/// type than a catalogue takes, no proper number, no proper code, and for an authority that stays one no heading or one that is too
/// long; or that the record, or one of its fields, can become too long by the headings that it may be given.
#[tactic(auto, unfolding(crate::specs::Admission::admission_refusal), using(iso2709_record::proofs::Lengths::record_bounds))]
pub(crate) fn examine(alloc: Global, rec: &Record, library: &Text) -> Result<Examined, RecordFault>
    ensures taken { IfOk result (IsExamined library.now rec.now.leader rec.now.fields) }
    ensures refused { IfErr result (IsRefusalOf (admission_refusal library.now rec.now.leader rec.now.fields)) }
{
    if !is_known_type(rec.leader.rtype) {
        return Err(RecordFault::Refused(Refusal::OtherType));
    }
    let key = key_of(alloc, rec, library)?;
    if let Some(refusal) = heading_refusal(rec) {
        return Err(RecordFault::Refused(refusal));
    }
    let class = class_of(&rec.leader);
    let fields = rec.fields.as_slice();
    let headings = heading_forms(alloc, fields, class)?;
    if has_no_room(fields, headings.as_slice(), class) {
        return Err(RecordFault::Refused(Refusal::NoRoom));
    }
    Ok(Examined { key, headings })
}
