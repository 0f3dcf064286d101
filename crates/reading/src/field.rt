ghost use Rattle.std.specs.Prelude.{◌≡◌, ◌*◌, ◌<◌, ◌≤◌, true, false, [], length, take, drop, IfOk, IfErr};
ghost use Rattle.marc_types.specs.Valid.{is_tag, is_control_tag, field_size};
ghost use Rattle.iso2709_record.specs.Layout.{layout_of, length_at};
ghost use Rattle.iso2709_record.specs.Faults.{IsSound, fits_tag};
ghost use Rattle.iso2709_record.specs.Raw.{coding_at, has_no_terminator};
ghost use Rattle.reading.specs.Reading.{is_known_coding, IsFieldAt};
ghost use Rattle.reading.specs.Answers.{IsRefusedText, IsRefusedEntry, IsFieldOfText};

use crate::text::text_of_entry;
use iso2709_record::{Layout, field_of, subfields_of};
use marc_types::{Field, RecordFault, Tag};
use std::alloc::Global;

/// The field of an entry of a sound piece, or the refusal of its text.
#[tactic(auto, using(iso2709_record::proofs::Sound::sound_area, iso2709_record::proofs::Sound::sound_sizes))]
pub(crate) fn read_field(
    alloc: Global,
    bytes: &[u8],
    layout: &Layout,
    coding: u8,
    entry: u32,
) -> Result<Field, RecordFault>
    requires sound { IsSound bytes.now }
    requires layout { layout.now ≡ layout_of bytes.now }
    requires coding { coding ≡ coding_at bytes.now }
    requires known { is_known_coding coding ≡ true }
    requires within { entry < layout.now.entries }
    ensures read { IfOk result (IsFieldAt bytes.now entry) }
    ensures refused { IfErr result (IsRefusedEntry bytes.now entry) }
    ensures size { IfOk result (λ field. field_size field ≤ 3 * length_at bytes.now entry) }
{
    let (tag, area) = field_of(bytes, layout, entry);
    if tag.is_control() {
        control_field(alloc, coding, entry, tag, area)
    } else {
        variable_field(alloc, coding, entry, tag, area)
    }
}

#[tactic(auto, using(crate::proofs::Fields::control_read, crate::proofs::Fields::size_of_control))]
fn control_field(
    alloc: Global,
    coding: u8,
    entry: u32,
    tag: Tag,
    area: &[u8],
) -> Result<Field, RecordFault>
    requires short { length area.now ≤ 99999 }
    requires known { is_known_coding coding ≡ true }
    requires control { is_control_tag tag ≡ true }
    requires valid { is_tag tag ≡ true }
    requires fits { fits_tag tag area.now ≡ true }
    requires unended { has_no_terminator area.now ≡ true }
    ensures read { IfOk result (IsFieldOfText coding tag [] area.now) }
    ensures refused { IfErr result (IsRefusedText coding area.now entry 0) }
    ensures size { IfOk result (λ field. field_size field ≤ 3 * length area.now) }
{
    let text = text_of_entry(alloc, coding, area, entry, 0)?.into_text(alloc)?;
    Ok(Field::Control { tag, text })
}

fn behind_indicators(area: &[u8]) -> &[u8]
    requires { 2 ≤ length area.now }
    ensures { result.now ≡ drop 2 area.now }
{
    &area[2..]
}

#[tactic(auto, using(crate::proofs::Fields::variable_parts, crate::proofs::Fields::variable_read, crate::proofs::Fields::subfields_there, crate::proofs::Fields::size_of_variable))]
fn variable_field(
    alloc: Global,
    coding: u8,
    entry: u32,
    tag: Tag,
    area: &[u8],
) -> Result<Field, RecordFault>
    requires short { length area.now ≤ 99999 }
    requires known { is_known_coding coding ≡ true }
    requires variable { is_control_tag tag ≡ false }
    requires valid { is_tag tag ≡ true }
    requires fits { fits_tag tag area.now ≡ true }
    requires unended { has_no_terminator area.now ≡ true }
    ensures read { IfOk result (IsFieldOfText coding tag (take 2 area.now) (drop 2 area.now)) }
    ensures refused { IfErr result (IsRefusedText coding (drop 2 area.now) entry 2) }
    ensures size { IfOk result (λ field. field_size field ≤ 3 * length area.now) }
{
    let behind = behind_indicators(area);
    let text = text_of_entry(alloc, coding, behind, entry, 2)?;
    let subs = subfields_of(alloc, text.as_str())?;
    Ok(Field::Variable {
        tag,
        ind1: area[0],
        ind2: area[1],
        subs,
    })
}
