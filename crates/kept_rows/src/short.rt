//! Records that are too short for anything of them to become too long. Their fields needn't be measured.
ghost use Rattle.std.specs.Prelude.{◌≡◌, ◌<◌, true, length, slice_get, option_and_then, is_some, Some, IfOk};
ghost use Rattle.marc_types.specs.Fields.{tag_of};
ghost use Rattle.marc_types.specs.declared.field.Field.{Field};
ghost use Rattle.heading_fields.specs.Tables.{is_subdividable};
ghost use Rattle.kept_rows.specs.Rows.{row_of};
ghost use Rattle.kept_rows.specs.Tests.{sound_reach, has_sound_fields, is_short};

use crate::row::KeptRow;
use crate::sound::read_reach;
use heading_fields::takes_subdivisions;
use marc_types::NoMemory;
use std::alloc::Global;
use written_record::WrittenRecord;

/// The greatest length of a field, less the longest heading and a `$0` of the longest code and number. No field grows by more.
const MOST_SHORT_LEN: usize = 9_403;

/// So many fields may grow by as much, and the record still fits.
const MOST_SHORT_FIELDS: u32 = 151;

/// Whether neither the record nor a field of it can become too long, whatever headings it is given.
#[tactic(auto, unfolding(crate::specs::Tests::is_short))]
pub(crate) fn is_short(rec: &WrittenRecord) -> bool
    ensures { result ≡ is_short rec.now.fields }
{
    rec.len() <= MOST_SHORT_LEN && rec.field_count() <= MOST_SHORT_FIELDS
}

/// Whether the field at a place takes subdivisions.
#[tactic(auto, using(crate::proofs::Shorts::tag_there))]
fn takes_subdivisions_at(row: &KeptRow, place: u32) -> bool
    requires { place < length row.now.rec.fields }
    ensures { (f : Field) → slice_get row.now.rec.fields place ≡ Some f → result ≡ is_subdividable row.now.class (tag_of f) }
{
    match row.rec.tag_at(place) {
        Some(tag) => takes_subdivisions(&tag, row.class),
        None => false,
    }
}

/// Whether the field at a place is sound alone. Only one that awaits a key is read.
fn is_sound_at(alloc: Global, row: &KeptRow, place: u32) -> Result<bool, NoMemory>
    requires { place < length row.now.rec.fields }
    ensures { IfOk result (λ told. told ≡ is_some (option_and_then (sound_reach row.now.class) (slice_get (row_of row.now).1.fields place))) }
{
    let tie = &row.ties.as_slice()[place as usize];
    if tie.awaits.is_some() {
        return Ok(read_reach(alloc, row, place)?.is_some());
    }
    if tie.whole {
        return Ok(takes_subdivisions_at(row, place));
    }
    Ok(true)
}

/// Whether each field of a short record is sound alone.
pub(crate) fn has_short_fields(alloc: Global, row: &KeptRow) -> Result<bool, NoMemory>
    requires { is_short row.now.rec.fields ≡ true }
    ensures { IfOk result (λ told. told ≡ has_sound_fields row.now.class (row_of row.now).1.fields) }
{
    for place in 0..row.rec.field_count() {
        if !is_sound_at(alloc, row, place)? {
            return Ok(false);
        }
    }
    Ok(true)
}
