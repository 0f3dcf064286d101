ghost use Rattle.std.specs.Prelude.{◌≡◌, ◌+◌, ◌*◌, ◌≤◌, ◌<◌, length, true};
ghost use Rattle.iso2709_record.specs.Layout.{layout_of, entry_at, tag_at, length_at, start_at};
ghost use Rattle.iso2709_record.specs.Faults.{is_good_entry, IsSound};

use crate::decimal::number;
use marc_types::Tag;

/// Where the parts of a record stand: the base address, from which the fields' areas count, and the number of entries
/// of the directory.
#[derive(Clone, Copy, Debug, PartialEq, Eq)]
pub struct Layout {
    pub base: u32,
    pub entries: u32,
}

/// Where the fields begin behind an empty directory.
pub(crate) const LEAST_BASE: u32 = 25;

const LEADER_LEN: usize = 24;

const ENTRY_LEN: usize = 12;

/// Where the parts of bytes stand that [`check`](crate::check) found sound.
#[tactic(auto, using(crate::proofs::Sound::sound_base, crate::proofs::Directory::extent), unfolding(crate::specs::Layout::base_of))]
pub fn layout_of(bytes: &[u8]) -> Layout
    requires { IsSound bytes.now }
    ensures { result ≡ layout_of bytes.now }
{
    let base = number(&bytes[12..17]);
    Layout {
        base,
        entries: (base - LEAST_BASE) / 12,
    }
}

/// The bytes of an entry of the directory.
#[tactic(auto, unfolding(crate::specs::Layout::entry_at))]
pub(crate) fn entry_at(bytes: &[u8], entry: u32) -> &[u8]
    requires { 36 + 12 * entry ≤ length bytes.now }
    ensures bytes { result.now ≡ entry_at bytes.now entry }
    ensures len { length result.now ≡ 12 }
{
    let from = LEADER_LEN + ENTRY_LEN * entry as usize;
    &bytes[from..from + ENTRY_LEN]
}

#[tactic(auto, unfolding(crate::specs::Layout::tag_at))]
pub(crate) fn tag_at(bytes: &[u8], entry: u32) -> Tag
    requires { 36 + 12 * entry ≤ length bytes.now }
    ensures { result ≡ tag_at bytes.now entry }
{
    let entry = entry_at(bytes, entry);
    Tag {
        a: entry[0],
        b: entry[1],
        c: entry[2],
    }
}

/// The length of an entry's area.
#[tactic(auto, using(crate::proofs::Directory::length_digits), unfolding(crate::specs::Layout::length_at))]
pub(crate) fn length_at(bytes: &[u8], entry: u32) -> u32
    requires within { 36 + 12 * entry ≤ length bytes.now }
    requires good { is_good_entry bytes.now entry ≡ true }
    ensures value { result ≡ length_at bytes.now entry }
    ensures below { result ≤ 9999 }
{
    number(&entry_at(bytes, entry)[3..7])
}

/// Where an entry's area begins, behind the base address.
#[tactic(auto, using(crate::proofs::Directory::start_digits), unfolding(crate::specs::Layout::start_at))]
pub(crate) fn start_at(bytes: &[u8], entry: u32) -> u32
    requires within { 36 + 12 * entry ≤ length bytes.now }
    requires good { is_good_entry bytes.now entry ≡ true }
    ensures value { result ≡ start_at bytes.now entry }
    ensures below { result ≤ 99999 }
{
    number(&entry_at(bytes, entry)[7..12])
}
