//! What standard error tells of a file's refused pieces, beside the console's lines.
use crate::details::RefusedBytes;
use holdings::HoldingRefusal;
use outside::{Note, Notes, RefusedPiece};
use outside_real::{FileRoom, LineNotes, MOST_LINES};
use std::alloc::Global;

/// The most refused pieces of a file that are looked at, as many as are told.
pub const MOST_TOLD: usize = 100;

/// The most bytes of a refused piece that are looked at: one more than the longest record has.
const LOOKED_AT: usize = 100_000;

/// How many pieces a file's front has: where each of them is refused, the file is hardly MARC.
const FRONT: usize = MOST_LINES;

/// The place of the last of so many.
pub const LAST_OF_FRONT: usize = FRONT - 1;

/// A refused piece of a file: its number, the place of its first byte, and why.
#[derive(Clone, Copy, Debug)]
pub struct Piece {
    pub ordinal: u64,
    pub offset: u64,
    pub refusal: HoldingRefusal,
}

/// Tells what is known of a refused piece.
pub fn tell_piece(
    alloc: Global,
    file: &str,
    piece: &Piece,
    room: &FileRoom<HostRuntime>,
    notes: &mut LineNotes<HostRuntime>,
) {
    let details = details_of(alloc, file, piece, room);
    notes.tell(&Note::Refused(RefusedPiece {
        file,
        ordinal: piece.ordinal,
        offset: piece.offset,
        details: details.as_ref().map_or("", |text| text.as_str()),
    }));
}

// Why a piece was refused, with what the file has at its place; none where there is no memory for it.
fn details_of(
    alloc: Global,
    file: &str,
    piece: &Piece,
    room: &FileRoom<HostRuntime>,
) -> Option<String> {
    let bytes = room
        .bytes_at(file, piece.offset, LOOKED_AT)
        .unwrap_or(Vec::new(alloc));
    let refused = RefusedBytes::new(bytes.as_slice(), piece.refusal);
    format!(in alloc; "{refused}").ok()
}

/// No more of a file's refused pieces come, of which so many aren't told. `last_of_front` is the number of the refused piece at
/// [`LAST_OF_FRONT`]: where it is the front's last piece, no piece of the front was accepted.
pub fn end_pieces(
    file: &str,
    untold: u64,
    last_of_front: Option<u64>,
    room: &FileRoom<HostRuntime>,
    notes: &mut LineNotes<HostRuntime>,
) {
    notes.pass_over(untold);
    notes.end();
    if last_of_front == Some(FRONT as u64) {
        room.tell_refused_front(file, FRONT);
    }
}
