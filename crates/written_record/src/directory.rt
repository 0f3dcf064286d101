//! The directory of a written record.
ghost use Rattle.std.specs.Prelude.{◌≡◌, ◌+◌, ◌*◌, ◌≤◌, length};
ghost use Rattle.iso2709_record.specs.Layout.{entry_at, tag_at};

use marc_types::Tag;

/// Where the directory begins.
pub(crate) const DIRECTORY: usize = 24;

/// The bytes of a directory's entry.
pub(crate) const ENTRY_LEN: usize = 12;

/// The bytes of an entry.
#[tactic(auto, unfolding(iso2709_record::specs::Layout::entry_at))]
fn entry_in(bytes: &[u8], entry: u32) -> &[u8]
    requires { 36 + 12 * entry ≤ length bytes.now }
    ensures bytes { result.now ≡ entry_at bytes.now entry }
    ensures len { length result.now ≡ 12 }
{
    let from = DIRECTORY + ENTRY_LEN * entry as usize;
    &bytes[from..from + ENTRY_LEN]
}

/// The tag of an entry, of which nothing else is read.
#[tactic(auto, unfolding(iso2709_record::specs::Layout::tag_at))]
pub(crate) fn tag_in(bytes: &[u8], entry: u32) -> Tag
    requires { 36 + 12 * entry ≤ length bytes.now }
    ensures { result ≡ tag_at bytes.now entry }
{
    let entry = entry_in(bytes, entry);
    Tag {
        a: entry[0],
        b: entry[1],
        c: entry[2],
    }
}
