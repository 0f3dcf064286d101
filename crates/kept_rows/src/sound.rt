//! What of a state that a catalogue can begin with is told of each row alone.
ghost use Rattle.std.specs.Prelude.{◌≡◌, ◌↔◌, ◌<◌, ◌≤◌, ◌&&◌, not, false, length, option_map, option_and_then, slice_get, Some, IfOk, IsTrue};
ghost use Rattle.marc_types.specs.Fields.{tag_of};
ghost use Rattle.marc_types.specs.Valid.{field_size, is_code, is_number};
ghost use Rattle.marc_types.specs.declared.field.Field.{Field};
ghost use Rattle.iso2709_record.specs.Written.{field_length};
ghost use Rattle.entry_record.specs.Authority.{heading_kind};
ghost use Rattle.entry_record.specs.Identity.{class_of, is_deletion};
ghost use Rattle.catalogue_rules.specs.State.{kept_field};
ghost use Rattle.catalogue_rules.specs.Receipt.{same_class};
ghost use Rattle.kept_rows.specs.Rows.{row_of};
ghost use Rattle.kept_rows.specs.Standing.{IsSoundRow};
ghost use Rattle.kept_rows.specs.Tests.{may_be_heading, suits_field, sound_reach, has_sound_fields};

use crate::reach::heading_reach;
use crate::row::KeptRow;
use crate::short::{has_short_fields, is_short};
use entry_record::{base_form, class_of, is_deletion};
use heading_fields::{heading_kind, takes_subdivisions};
use iso2709_record::field_len;
use marc_types::{Class, Field, Key, Kind, Leader, NoMemory, Tag, Tie, can_be_code, can_be_number};
use std::alloc::Global;
use written_record::WrittenRecord;

/// The greatest lengths that a written record and its fields have room for.
const MOST_RECORD_LEN: u64 = 99_999;

const MOST_FIELD_LEN: u64 = 9_999;

/// A leader, the directory's terminator and the record's.
const FRAME_LEN: u64 = 26;

const DIRECTORY_ENTRY_LEN: u64 = 12;

fn same_class(class: Class, other: Class) -> bool
    ensures { result ≡ same_class class other }
{
    match (class, other) {
        (Class::Authority, Class::Authority) => true,
        (Class::Bibliographic, Class::Bibliographic) => true,
        _ => false,
    }
}

/// Whether a field with that tag may be a heading field. Any other is measured as it is written, unread.
#[tactic(auto, unfolding(crate::specs::Tests::may_be_heading))]
fn may_be_heading(tag: &Tag, class: Class) -> bool
    ensures { result ≡ may_be_heading class tag.now }
{
    match class {
        Class::Authority => tag.a == b'5',
        Class::Bibliographic => matches!(tag.a, b'1' | b'6' | b'7' | b'8'),
    }
}

/// The kind of a heading field.
#[tactic(auto, unfolding(entry_record::specs::Authority::heading_kind, entry_record::specs::Authority::has_form))]
fn kind_of_heading(alloc: Global, field: &Field, class: Class) -> Result<Option<Kind>, NoMemory>
    ensures { IfOk result (λ kind. kind ≡ heading_kind class field.now) }
{
    let Some(kind) = heading_kind(field, class) else {
        return Ok(None);
    };
    let form = base_form(alloc, field, kind)?;
    if form.items.is_empty() {
        return Ok(None);
    }
    Ok(Some(kind))
}

/// Whether a tie may stand beside a field with that tag, which is a heading field or not.
#[tactic(auto, unfolding(crate::specs::Tests::suits_field))]
fn suits_field(class: Class, tag: &Tag, heading: bool, tie: &Tie) -> bool
    ensures { result ≡ suits_field class tag.now heading tie.now }
{
    (!tie.whole || takes_subdivisions(tag, class)) && (tie.awaits.is_none() || heading)
}

/// The length of the field at a place, as it is written.
#[tactic(auto, using(crate::proofs::Places::written_length), unfolding(iso2709_record::specs::Written::field_length, iso2709_record::specs::Written::field_bytes))]
fn written_len(rec: &WrittenRecord, place: u32) -> u64
    requires { place < length rec.now.fields }
    ensures { (f : Field) → slice_get rec.now.fields place ≡ Some f → result ≡ field_length f }
{
    match rec.area_at(place) {
        Some(area) => area.len() as u64 + 1,
        None => 0,
    }
}

/// The longest that a field can become, where it is sound alone.
#[tactic(auto, unfolding(crate::specs::Tests::sound_reach, crate::specs::Tests::is_sound_field))]
fn sound_reach(
    alloc: Global,
    class: Class,
    field: &Field,
    tie: &Tie,
) -> Result<Option<u64>, NoMemory>
    requires { field_size field.now ≤ 1000000 }
    ensures { IfOk result (λ told. told ≡ sound_reach class (kept_field field.now tie.now)) }
{
    let kind = kind_of_heading(alloc, field, class)?;
    if !suits_field(class, field.tag(), kind.is_some(), tie) {
        return Ok(None);
    }
    Ok(Some(match kind {
        Some(kind) => heading_reach(field, tie, class, kind),
        None => field_len(field),
    }))
}

/// The same of the field at a place that isn't a heading field, and has that tag.
#[tactic(auto, using(crate::proofs::Places::unread), unfolding(crate::specs::Tests::is_sound_field))]
fn unread_reach(row: &KeptRow, place: u32, tag: &Tag) -> Option<u64>
    requires within { place < length row.now.rec.fields }
    requires tag { option_map tag_of (slice_get row.now.rec.fields place) ≡ Some tag.now }
    requires other { may_be_heading row.now.class tag.now ≡ false }
    ensures { result ≡ option_and_then (sound_reach row.now.class) (slice_get (row_of row.now).1.fields place) }
{
    let tie = &row.ties.as_slice()[place as usize];
    if suits_field(row.class, tag, false, tie) {
        Some(written_len(&row.rec, place))
    } else {
        None
    }
}

/// The same of the field at a place, which is read.
pub(crate) fn read_reach(alloc: Global, row: &KeptRow, place: u32) -> Result<Option<u64>, NoMemory>
    requires within { place < length row.now.rec.fields }
    ensures { IfOk result (λ told. told ≡ option_and_then (sound_reach row.now.class) (slice_get (row_of row.now).1.fields place)) }
{
    let tie = &row.ties.as_slice()[place as usize];
    match row.rec.field_at(alloc, place)? {
        Some(field) => sound_reach(alloc, row.class, &field, tie),
        None => Ok(None),
    }
}

/// The same of the field at a place. It is read where it may be a heading field.
fn reach_at(alloc: Global, row: &KeptRow, place: u32) -> Result<Option<u64>, NoMemory>
    requires within { place < length row.now.rec.fields }
    ensures { IfOk result (λ told. told ≡ option_and_then (sound_reach row.now.class) (slice_get (row_of row.now).1.fields place)) }
{
    match row.rec.tag_at(place) {
        Some(tag) if !may_be_heading(&tag, row.class) => Ok(unread_reach(row, place, &tag)),
        _ => read_reach(alloc, row, place),
    }
}

fn has_measured_fields(alloc: Global, row: &KeptRow) -> Result<bool, NoMemory>
    ensures { IfOk result (λ told. told ≡ has_sound_fields row.now.class (row_of row.now).1.fields) }
{
    let mut len = FRAME_LEN;
    for place in 0..row.rec.field_count() {
        let Some(reach) = reach_at(alloc, row, place)? else {
            return Ok(false);
        };
        if reach > MOST_FIELD_LEN {
            return Ok(false);
        }
        len += DIRECTORY_ENTRY_LEN + reach;
    }
    Ok(len <= MOST_RECORD_LEN)
}

fn has_sound_fields(alloc: Global, row: &KeptRow) -> Result<bool, NoMemory>
    ensures { IfOk result (λ told. told ≡ has_sound_fields row.now.class (row_of row.now).1.fields) }
{
    if is_short(&row.rec) {
        has_short_fields(alloc, row)
    } else {
        has_measured_fields(alloc, row)
    }
}

fn suits_class(leader: &Leader, class: Class) -> bool
    ensures { result ≡ same_class (class_of leader.now) class && not (is_deletion leader.now) }
{
    same_class(class_of(leader), class) && !is_deletion(leader)
}

fn is_proper(key: &Key) -> bool
    ensures { result ≡ is_code key.now.code && is_number key.now.number }
{
    can_be_code(key.code.as_bytes()) && can_be_number(key.number.as_bytes())
}

/// Whether a row is sound alone.
#[tactic(auto, using(crate::proofs::Told::sound_row), unfolding(crate::specs::Tests::is_sound_row))]
pub fn is_sound(alloc: Global, row: &KeptRow) -> Result<bool, NoMemory>
    ensures { IfOk result (λ told. IsTrue told ↔ IsSoundRow row.now.class (row_of row.now)) }
{
    if !suits_class(&row.rec.leader(), row.class) || !is_proper(&row.key) {
        return Ok(false);
    }
    has_sound_fields(alloc, row)
}
