ghost use Rattle.std.specs.Prelude.{◌≡◌, ◌+◌, ◌*◌, ◌≤◌, ◌<◌, suc, true, false, length, IfOk, OnOk, IfErr, IfSome, is_none, MatchOption};
ghost use Rattle.iso2709_record.specs.First.{AllGood, IsFirstBad};
ghost use Rattle.iso2709_record.specs.Layout.{base_of, entry_count, layout_of, lengths_of, area_at, data_at, tag_at};
ghost use Rattle.iso2709_record.specs.Faults.{has_bad_length, has_bad_leader, is_ragged, is_good_entry, is_good_field, fits_tag, HasWholeEntries, HasDirectory, IsSound, IsFirstFault};

use crate::blocks::{FIELD_TERMINATOR, RECORD_TERMINATOR};
use crate::decimal::{are_digits, number};
use crate::layout::{LEAST_BASE, Layout, entry_at, length_at, start_at, tag_at};
use crate::marks::{are_alphanumeric, are_printable, ends_once, is_control_data, is_variable_data};
use marc_types::{Refusal, Tag};

/// The bytes of a leader, of the field terminator behind an empty directory, and of the record terminator.
const LEAST_LEN: usize = 26;

#[tactic(auto, unfolding(crate::specs::Faults::has_bad_length))]
fn has_bad_length(bytes: &[u8]) -> bool
    ensures value { result ≡ has_bad_length bytes.now }
    ensures least { result ≡ false → 26 ≤ length bytes.now }
{
    bytes.len() < LEAST_LEN
        || !are_digits(&bytes[..5])
        || number(&bytes[..5]) as usize != bytes.len()
        || !ends_once(RECORD_TERMINATOR, bytes)
}

/// The base address, where the leader is as it should be.
#[tactic(auto, unfolding(crate::specs::Faults::has_bad_leader, crate::specs::Layout::base_of))]
fn good_base(bytes: &[u8]) -> Option<u32>
    requires { 26 ≤ length bytes.now }
    ensures value { IfSome result (λ base. base ≡ base_of bytes.now) }
    ensures bounds { IfSome result (λ base. (25 ≤ base) × (base < length bytes.now)) }
    ensures good { has_bad_leader bytes.now ≡ is_none result }
{
    if !are_printable(&bytes[5..10])
        || !are_printable(&bytes[17..20])
        || !are_digits(&bytes[12..17])
    {
        return None;
    }
    let base = number(&bytes[12..17]);
    if base < LEAST_BASE || base as usize > bytes.len() - 1 {
        return None;
    }
    Some(base)
}

/// Whether no number of whole entries and a field terminator stand before the base address.
#[tactic(auto, unfolding(crate::specs::Faults::is_ragged))]
fn is_ragged(bytes: &[u8], base: u32) -> bool
    requires base { base ≡ base_of bytes.now }
    requires from { 25 ≤ base }
    requires to { base < length bytes.now }
    ensures { result ≡ is_ragged bytes.now }
{
    (base - LEAST_BASE) % 12 != 0 || bytes[base as usize - 1] != FIELD_TERMINATOR
}

#[tactic(auto, unfolding(crate::specs::Faults::is_good_entry))]
fn is_good_entry(bytes: &[u8], entry: u32) -> bool
    requires { 36 + 12 * entry ≤ length bytes.now }
    ensures { result ≡ is_good_entry bytes.now entry }
{
    let entry = entry_at(bytes, entry);
    are_alphanumeric(&entry[..3]) && are_digits(&entry[3..])
}

fn first_bad_entry(bytes: &[u8], entries: u32) -> Option<u32>
    requires { 24 + 12 * entries ≤ length bytes.now }
    ensures { MatchOption result
        (AllGood (is_good_entry bytes.now) entries)
        (IsFirstBad (is_good_entry bytes.now) entries) }
{
    for entry in 0..entries {
        if !is_good_entry(bytes, entry) {
            return Some(entry);
        }
    }
    None
}

/// Whether what stands before a field's terminator is as the tag says.
#[tactic(auto, unfolding(crate::specs::Faults::fits_tag))]
fn fits_tag(tag: Tag, bytes: &[u8]) -> bool
    ensures { result ≡ fits_tag tag bytes.now }
{
    if tag.is_control() {
        is_control_data(bytes)
    } else {
        is_variable_data(bytes)
    }
}

/// Whether a field is as its entry says. The lengths are those of the entries up to this one together.
#[tactic(auto, using(crate::proofs::Directory::extent), unfolding(crate::specs::Faults::is_good_field, crate::specs::Layout::area_at, crate::specs::Layout::data_at))]
fn is_good_field(bytes: &[u8], base: u32, entry: u32, lengths: u32) -> bool
    requires directory { HasDirectory bytes.now }
    requires within { entry < entry_count bytes.now }
    requires base { base ≡ base_of bytes.now }
    requires lengths { lengths ≡ lengths_of bytes.now (suc entry) }
    ensures { result ≡ is_good_field bytes.now entry }
{
    let len = length_at(bytes, entry) as usize;
    let from = (base + start_at(bytes, entry)) as usize;
    if len == 0
        || from + len > bytes.len() - 1
        || lengths as usize > bytes.len() - base as usize - 1
    {
        return false;
    }
    let area = &bytes[from..from + len];
    ends_once(FIELD_TERMINATOR, area) && fits_tag(tag_at(bytes, entry), &area[..len - 1])
}

#[tactic(auto, using(crate::proofs::Directory::extent))]
fn first_bad_field(bytes: &[u8], layout: &Layout) -> Option<u32>
    requires directory { HasDirectory bytes.now }
    requires layout { layout.now ≡ layout_of bytes.now }
    ensures { MatchOption result
        (AllGood (is_good_field bytes.now) (entry_count bytes.now))
        (IsFirstBad (is_good_field bytes.now) (entry_count bytes.now)) }
{
    let mut lengths = 0;
    for entry in 0..layout.entries {
        lengths += length_at(bytes, entry);
        if !is_good_field(bytes, layout.base, entry, lengths) {
            return Some(entry);
        }
    }
    None
}

/// Where the parts of a record stand, or why its bytes are refused: for the first of its length, its leader, its
/// directory and its fields that breaks a rule, and of entries the first that does. Source: ISO 2709 as MARC 21 uses it.
pub fn check(bytes: &[u8]) -> Result<Layout, Refusal>
    // The parts of a sound record.
    ensures layout { IfOk result (λ layout. layout ≡ layout_of bytes.now) }
    ensures sound { OnOk result (IsSound bytes.now) }

    // The first fault.
    ensures refused { IfErr result (IsFirstFault bytes.now) }
{
    if has_bad_length(bytes) {
        return Err(Refusal::BadLength);
    }
    let Some(base) = good_base(bytes) else {
        return Err(Refusal::BadLeader);
    };
    let layout = Layout {
        base,
        entries: (base - LEAST_BASE) / 12,
    };
    if is_ragged(bytes, base) {
        return Err(Refusal::BadDirectory(layout.entries));
    }
    if let Some(entry) = first_bad_entry(bytes, layout.entries) {
        return Err(Refusal::BadDirectory(entry));
    }
    if let Some(entry) = first_bad_field(bytes, &layout) {
        return Err(Refusal::BadField(entry));
    }
    Ok(layout)
}
