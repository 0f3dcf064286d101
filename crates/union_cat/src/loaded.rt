//! What standard error tells of files that were loaded, beside the console's lines.
use crate::refused::{LAST_OF_FRONT, MOST_TOLD, Piece, end_pieces, tell_piece};
use durable_catalogue::Effects;
use file_entries::RefusedItem;
use holdings::HoldingRefusal;
use loader_workers::FileEnd;
use outside_real::{FileRoom, LineNotes};
use std::alloc::Global;
use union_top::Loaded;

/// Tells of each file what is known of its refused pieces, and what its committed records did to those under their keys. Where there is no
/// memory for that it is passed over.
pub fn tell_loaded(
    rt: &HostRuntime,
    loaded: &Loaded<'_, FileRoom<HostRuntime>>,
    room: &FileRoom<HostRuntime>,
    notes: &mut LineNotes<HostRuntime>,
) {
    let Ok(results) = loaded.results() else {
        return;
    };
    room.end_progress();
    let libraries = loaded.libraries().iter();
    for (place, (library, result)) in libraries.zip(results.iter()).enumerate() {
        let file = library.file.as_str();
        tell_refused(rt.alloc(), file, result.refused.as_slice(), room, notes);
        let loader = u32::try_from(place).unwrap_or(u32::MAX);
        tell_effects(rt, file, loaded.effects(loader), result.end);
    }
}

// What the committed records of a file did. Behind a fault of the journal's device more of them may be there.
fn tell_effects(rt: &HostRuntime, file: &str, effects: Effects, end: FileEnd) {
    let (new, replaced) = (effects.new, effects.replaced);
    let (deleted, missed) = (effects.deleted, effects.missed);
    let known = match end {
        FileEnd::DeviceFault => ", of what is known to be committed",
        _ => "",
    };
    let _told = eprintln!(rt;
        "union_cat: {file}: {new} new, {replaced} replaced, {deleted} deleted, {missed} deletions of no record{known}"
    );
}

// What is known of a file's refused pieces.
fn tell_refused(
    alloc: Global,
    file: &str,
    items: &[RefusedItem],
    room: &FileRoom<HostRuntime>,
    notes: &mut LineNotes<HostRuntime>,
) {
    for item in items.iter().take(MOST_TOLD) {
        let piece = Piece {
            ordinal: item.ordinal,
            offset: item.offset,
            refusal: HoldingRefusal::OfRecord(item.refusal),
        };
        tell_piece(alloc, file, &piece, room, notes);
    }
    let untold = items.len().saturating_sub(MOST_TOLD) as u64;
    let last_of_front = items.get(LAST_OF_FRONT).map(|item| item.ordinal);
    end_pieces(file, untold, last_of_front, room, notes);
}
