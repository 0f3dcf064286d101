//! The refused pieces of a command that ends with its file, as the console's lines name them.
use crate::refused::{LAST_OF_FRONT, MOST_TOLD, Piece, end_pieces, tell_piece};
use holdings::HoldingRefusal;
use marc_types::{Refusal, Set};
use outside_real::{FileRoom, FileSink, LineNotes, Target};
use std::alloc::Global;
use std::str;

/// Tells what is known of the refused pieces that a console was told. What it was told is a line for each, and one of the counts.
pub fn tell_heard(
    alloc: Global,
    room: &FileRoom<HostRuntime>,
    console: &FileSink<Target<HostRuntime>>,
    notes: &mut LineNotes<HostRuntime>,
) {
    let (Some(file), Some(heard)) = (room.judged(), console.heard()) else {
        return;
    };
    let text = str::from_utf8(heard.text()).unwrap_or("");
    let mut told: u64 = 0;
    let mut last_of_front = None;
    for (place, line) in text.lines().enumerate() {
        let Some(piece) = piece_of(file, line) else {
            continue;
        };
        if place < MOST_TOLD {
            tell_piece(alloc, file, &piece, room, notes);
            told = told.saturating_add(1);
        }
        if place == LAST_OF_FRONT {
            last_of_front = Some(piece.ordinal);
        }
    }
    if told > 0 {
        let untold = heard.lines().saturating_sub(1).saturating_sub(told);
        end_pieces(file, untold, last_of_front, room, notes);
    }
}

// The refused piece of which a line tells; none where it is another line.
fn piece_of(file: &str, line: &str) -> Option<Piece> {
    let line = line.strip_prefix(file)?.strip_prefix(' ')?;
    let (ordinal, line) = line.split_once(' ')?;
    let (offset, line) = line.split_once(' ')?;
    let (number, words) = line.split_once(' ')?;
    Some(Piece {
        ordinal: ordinal.parse().ok()?,
        offset: offset.parse().ok()?,
        refusal: refusal_of(number.parse().ok()?, words)?,
    })
}

// The refusal of that number, whose words end with the places that it has. Which set a designation names isn't told again.
fn refusal_of(number: u8, words: &str) -> Option<HoldingRefusal> {
    let refusal = match number {
        1 => Refusal::Overlong,
        2 => Refusal::Unfinished,
        3 => Refusal::BadLength,
        4 => Refusal::BadLeader,
        5 => Refusal::BadDirectory(last_number(words)?),
        6 => Refusal::BadField(last_number(words)?),
        7 => Refusal::UnknownCoding,
        8 => {
            let (entry, offset) = places(words)?;
            Refusal::BadText(entry, offset)
        }
        9 => Refusal::OtherType,
        10 => Refusal::NoNumber,
        11 => Refusal::BadCode,
        12 => Refusal::NoHeading,
        13 => Refusal::HeadingTooLong,
        14 => Refusal::NoRoom,
        15 => {
            let (entry, offset) = places(words)?;
            Refusal::OtherSet(Set::Unknown, entry, offset)
        }
        17 => return Some(HoldingRefusal::NoTarget),
        _ => return None,
    };
    Some(HoldingRefusal::OfRecord(refusal))
}

// The number at the end of words.
fn last_number(words: &str) -> Option<u32> {
    let (_, number) = words.rsplit_once(' ')?;
    number.parse().ok()
}

// The entry and the offset at the end of words: `entry 3 at 17`.
fn places(words: &str) -> Option<(u32, u32)> {
    let (before, offset) = words.rsplit_once(" at ")?;
    Some((last_number(before)?, offset.parse().ok()?))
}
