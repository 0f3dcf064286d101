//! What stands behind a log's end.
ghost use Rattle.std.specs.Prelude.{◌≡◌};
ghost use Rattle.commit_journal.specs.Tails.{tail_behind};

use crate::format::LARGEST_APPEND;

/// What stands behind the first closed gate of a log.
#[derive(Clone, Copy, Debug, PartialEq, Eq)]
pub enum Tail {
    /// Nothing.
    Nothing,
    /// Bytes, no more than an append to a journal leaves where a crash stops it.
    Torn,
    /// More than that: no crash left them.
    More,
}

/// What stands behind the closed gate at that place, of so many bytes.
pub fn tail_behind(place: u64, bytes: u64) -> Tail
    ensures { result ≡ tail_behind place bytes }
{
    let behind = bytes.saturating_sub(place).saturating_sub(1);
    if behind == 0 {
        Tail::Nothing
    } else if behind <= LARGEST_APPEND as u64 {
        Tail::Torn
    } else {
        Tail::More
    }
}
