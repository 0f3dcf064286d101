//! What is due of a catalogue, as a file.
ghost use Rattle.std.specs.Prelude.{◌≡◌, ◌∷◌, [], true, Some, None, OnOk, IsErrOf};
ghost use Rattle.outside.specs.Fault.{HasWriteCause};
ghost use Rattle.outside.specs.Room.{AsLog, SameBut};
ghost use Rattle.output_files.specs.Outputs.{IsOutput, IsOutputLeft};
ghost use Rattle.journal_files.specs.Journals.{IsClosedDisk};
ghost use Rattle.archive_commands.specs.Reads.{due_view, due_of};

use crate::due::Due;
use catalogue_core::Catalogue;
use durable_catalogue::RecoveredReadOnly;
use journal_files::close_archive;
use output_files::{Export, report_bytes, write_document};
use outside::{Room, WriteFault};
use std::alloc::Global;

/// Writes what is due of a catalogue into the file `out`. All memory is taken before that is begun.
#[tactic(auto, using(outside::proofs::Rooms::same_but_itself))]
pub fn write_due<R: Room>(
    alloc: Global,
    room: &mut R,
    out: &str,
    core: &Catalogue,
    due: Due<'_>,
) -> Result<(), WriteFault>
    requires free { (R.seen room.old).open_as out.now ≡ None }
    requires staged { core.now.staged ≡ [] }
    ensures apart { SameBut (R.seen room.old) (R.seen room.new) (out.now ∷ []) }
    ensures closed { (R.seen room.new).open_as out.now ≡ None }
    ensures cause { HasWriteCause ((R.seen room.old).out_faults out.now) ((R.seen room.new).out_faults out.now) result }
    ensures unbegun { IsErrOf result WriteFault.NoMemory → SameBut (R.seen room.old) (R.seen room.new) [] }
    ensures bytes { OnOk result ((R.seen room.old).tells ≡ true →
        (R.seen room.new).file out.now ≡ Some (due_of (due_view due.entry) core.now.history)) }
    ensures left { (R.seen room.old).tells ≡ true →
        IsOutputLeft (R.seen room.old) (R.seen room.new) out.now (due_of (due_view due.entry) core.now.history) }
{
    match due {
        Due::Export(code) => match Export::of(alloc, core, code) {
            Ok(export) => write_document(room, out, export),
            Err(_) => Err(WriteFault::NoMemory),
        },
        Due::Report => match report_bytes(alloc, core) {
            Ok(report) => write_document(room, out, report),
            Err(_) => Err(WriteFault::NoMemory),
        },
    }
}

/// Writes what is due of an archive into the file `out`, and closes its log.
pub fn write_archive<R: Room>(
    alloc: Global,
    room: &mut R,
    journal: &str,
    out: &str,
    due: Due<'_>,
    archive: RecoveredReadOnly<R::Log>,
) -> Result<(), WriteFault>
    requires opened { (R.seen room.old).open_as journal.now ≡ Some AsLog }
    requires free { (R.seen room.old).open_as out.now ≡ None }

    // The room: nothing but these two changes, and both are closed.
    ensures apart { SameBut (R.seen room.old) (R.seen room.new) (journal.now ∷ out.now ∷ []) }
    ensures closed { (R.seen room.new).open_as journal.now ≡ None }

    // The output, as `write_due` leaves it.
    ensures output { IsOutput (R.seen room.old) (R.seen room.new) out.now (due_of (due_view due.entry) archive.core.history) result }
    ensures memory { IsErrOf result WriteFault.NoMemory → SameBut (R.seen room.old) (R.seen room.new) (journal.now ∷ []) }
    ensures bytes { OnOk result ((R.seen room.old).tells ≡ true →
        (R.seen room.new).file out.now ≡ Some (due_of (due_view due.entry) archive.core.history)) }

    // The log and its file are what the archive left.
    ensures log { (R.seen room.old).tells ≡ true → IsClosedDisk (R.Log.seen archive.journal.disk) (R.seen room.new) journal.now }
{
    let written = write_due(alloc, room, out, archive.core(), due);
    close_archive(room, journal, archive);
    written
}
