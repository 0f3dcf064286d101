ghost use Rattle.std.specs.Prelude.{◌≡◌, ◌+◌, ◌<◌, ◌≤◌, true, length, slice_index};
ghost use Rattle.marc_types.specs.Valid.{is_tag, is_leader};
ghost use Rattle.iso2709_record.specs.Layout.{layout_of, tag_at, length_at, start_at, data_at};
ghost use Rattle.iso2709_record.specs.Faults.{fits_tag, IsSound};
ghost use Rattle.iso2709_record.specs.Raw.{leader_at, coding_at, has_no_terminator};

use crate::layout::{Layout, length_at, start_at, tag_at};
use marc_types::{Leader, Tag};

/// The leader bytes that a record keeps, of bytes that [`check`](crate::check) found sound.
#[tactic(auto, using(crate::proofs::Sound::sound_leader, crate::proofs::Sound::sound_size), unfolding(crate::specs::Raw::leader_at))]
pub fn leader_of(bytes: &[u8]) -> Leader
    requires { IsSound bytes.now }
    ensures value { result ≡ leader_at bytes.now }
    ensures valid { is_leader result ≡ true }
{
    Leader {
        status: bytes[5],
        rtype: bytes[6],
        level: bytes[7],
        control: bytes[8],
        encoding: bytes[17],
        form: bytes[18],
        linked: bytes[19],
    }
}

/// Leader byte 09, which says how the text is coded.
#[tactic(auto, using(crate::proofs::Sound::sound_size))]
pub fn coding_of(bytes: &[u8]) -> u8
    requires { IsSound bytes.now }
    ensures { result ≡ coding_at bytes.now }
{
    bytes[9]
}

/// Where an entry's area begins, behind the base address, of bytes that [`check`](crate::check) found sound.
#[tactic(auto, using(crate::proofs::Directory::extent))]
pub fn start_of(bytes: &[u8], layout: &Layout, entry: u32) -> u64
    requires sound { IsSound bytes.now }
    requires layout { layout.now ≡ layout_of bytes.now }
    requires within { entry < layout.now.entries }
    ensures value { result ≡ start_at bytes.now entry }
    ensures below { result ≤ 99999 }
{
    u64::from(start_at(bytes, entry))
}

/// The tag of an entry and its area without the field terminator, of bytes that [`check`](crate::check) found sound.
#[tactic(auto, using(crate::proofs::Directory::extent, crate::proofs::Sound::sound_area, crate::proofs::Sound::sound_tag, crate::proofs::Sound::sound_unended, crate::proofs::Sound::length_data), unfolding(crate::specs::Layout::area_at, crate::specs::Layout::data_at))]
pub fn field_of<'a>(bytes: &'a [u8], layout: &Layout, entry: u32) -> (Tag, &'a [u8])
    requires sound { IsSound bytes.now }
    requires layout { layout.now ≡ layout_of bytes.now }
    requires within { entry < layout.now.entries }
    ensures tag { result.0 ≡ tag_at bytes.now entry }
    ensures area { result.1.now ≡ data_at bytes.now entry }

    // The tag is valid, the area is as the tag says and has no terminator, and with its own it has the entry's length.
    ensures valid { is_tag result.0 ≡ true }
    ensures fits { fits_tag result.0 result.1.now ≡ true }
    ensures unended { has_no_terminator result.1.now ≡ true }
    ensures len { length result.1.now + 1 ≡ length_at bytes.now entry }
{
    let len = length_at(bytes, entry) as usize;
    let from = (layout.base + start_at(bytes, entry)) as usize;
    let area = &bytes[from..from + len];
    (tag_at(bytes, entry), &area[..len - 1])
}
