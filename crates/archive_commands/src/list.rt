//! The list of a catalogue's headings, as a file.
ghost use Rattle.std.specs.Prelude.{◌≡◌, ◌∷◌, [], true, Some, None, OnOk, IsErrOf};
ghost use Rattle.outside.specs.Fault.{HasWriteCause};
ghost use Rattle.outside.specs.Room.{AsLog, SameBut};
ghost use Rattle.output_files.specs.Outputs.{IsOutput, IsOutputLeft};
ghost use Rattle.journal_files.specs.Journals.{IsClosedDisk};
ghost use Rattle.archive_commands.specs.Telling.{list_due};

use catalogue_core::Catalogue;
use command_words::HeadingRange;
use durable_catalogue::RecoveredReadOnly;
use heading_list::headings_of_catalogue;
use journal_files::close_archive;
use output_files::write_document;
use outside::{Room, WriteFault};
use std::alloc::Global;

/// Writes the list of a catalogue's headings of a kind from a typed heading on, so many at most, into the file `out`. All memory is
/// taken before that is begun.
#[tactic(auto, using(outside::proofs::Rooms::same_but_itself))]
pub fn write_headings<R: Room>(
    alloc: Global,
    room: &mut R,
    out: &str,
    core: &Catalogue,
    range: HeadingRange<'_>,
) -> Result<(), WriteFault>
    requires free { (R.seen room.old).open_as out.now ≡ None }
    requires staged { core.now.staged ≡ [] }
    ensures apart { SameBut (R.seen room.old) (R.seen room.new) (out.now ∷ []) }
    ensures closed { (R.seen room.new).open_as out.now ≡ None }
    ensures cause { HasWriteCause ((R.seen room.old).out_faults out.now) ((R.seen room.new).out_faults out.now) result }
    ensures unbegun { IsErrOf result WriteFault.NoMemory → SameBut (R.seen room.old) (R.seen room.new) [] }
    ensures bytes { OnOk result ((R.seen room.old).tells ≡ true →
        (R.seen room.new).file out.now ≡ Some (list_due range.entry core.now.history)) }
    ensures left { (R.seen room.old).tells ≡ true →
        IsOutputLeft (R.seen room.old) (R.seen room.new) out.now (list_due range.entry core.now.history) }
{
    match headings_of_catalogue(alloc, core, range) {
        Ok(list) => write_document(room, out, list),
        Err(_) => Err(WriteFault::NoMemory),
    }
}

/// Writes that list of an archive into the file `out`, and closes its log.
pub fn write_list<R: Room>(
    alloc: Global,
    room: &mut R,
    journal: &str,
    out: &str,
    range: HeadingRange<'_>,
    archive: RecoveredReadOnly<R::Log>,
) -> Result<(), WriteFault>
    requires opened { (R.seen room.old).open_as journal.now ≡ Some AsLog }
    requires free { (R.seen room.old).open_as out.now ≡ None }

    // The room: nothing but these two changes, and both are closed.
    ensures apart { SameBut (R.seen room.old) (R.seen room.new) (journal.now ∷ out.now ∷ []) }
    ensures closed { (R.seen room.new).open_as journal.now ≡ None }

    // The output, as `write_headings` leaves it.
    ensures output { IsOutput (R.seen room.old) (R.seen room.new) out.now (list_due range.entry archive.core.history) result }
    ensures memory { IsErrOf result WriteFault.NoMemory → SameBut (R.seen room.old) (R.seen room.new) (journal.now ∷ []) }
    ensures bytes { OnOk result ((R.seen room.old).tells ≡ true →
        (R.seen room.new).file out.now ≡ Some (list_due range.entry archive.core.history)) }

    // The log and its file are what the archive left.
    ensures log { (R.seen room.old).tells ≡ true → IsClosedDisk (R.Log.seen archive.journal.disk) (R.seen room.new) journal.now }
{
    let written = write_headings(alloc, room, out, archive.core(), range);
    close_archive(room, journal, archive);
    written
}
