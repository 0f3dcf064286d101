//! The lines of a table of numbers, as a file.
ghost use Rattle.std.specs.Prelude.{◌≡◌, ◌∷◌, [], true, Some, None, OnOk, IsErrOf};
ghost use Rattle.outside.specs.Fault.{HasWriteCause};
ghost use Rattle.outside.specs.Room.{AsLog, SameBut};
ghost use Rattle.output_files.specs.Outputs.{IsOutput, IsOutputLeft};
ghost use Rattle.journal_files.specs.Journals.{IsClosedDisk};
ghost use Rattle.match_report.specs.Groups.{lines_of, matches_of};

use journal_files::{JournalScan, close_history};
use match_report::{Groups, Matches};
use output_files::{Document, write_document};
use outside::{Room, Sink, WriteFault};
use std::alloc::Global;

/// The lines of groups, as a document.
#[derive(Drop)]
struct GroupLines<'a> {
    groups: Groups<'a>,
}

impl<'a> Document for GroupLines<'a> {
    ghost due = { λ d. lines_of d.groups };

    fn write_to<K: Sink>(self, out: &mut K) -> Result<(), WriteFault> {
        self.groups.write(out)?;
        Ok(())
    }
}

/// Writes the lines of a table's groups into the file of that name. Only the finding of the groups takes memory, and without it no
/// file is begun.
#[tactic(auto, using(outside::proofs::Rooms::same_but_itself))]
pub fn write_table<R: Room>(
    alloc: Global,
    room: &mut R,
    name: &str,
    table: &Matches,
) -> Result<(), WriteFault>
    requires free { (R.seen room.old).open_as name.now ≡ None }
    ensures apart { SameBut (R.seen room.old) (R.seen room.new) (name.now ∷ []) }
    ensures closed { (R.seen room.new).open_as name.now ≡ None }
    ensures cause { HasWriteCause ((R.seen room.old).out_faults name.now) ((R.seen room.new).out_faults name.now) result }
    ensures memory { IsErrOf result WriteFault.NoMemory → SameBut (R.seen room.old) (R.seen room.new) [] }
    ensures bytes { OnOk result ((R.seen room.old).tells ≡ true →
        (R.seen room.new).file name.now ≡ Some (lines_of (matches_of table.now))) }
    ensures left { (R.seen room.old).tells ≡ true →
        IsOutputLeft (R.seen room.old) (R.seen room.new) name.now (lines_of (matches_of table.now)) }
{
    match table.groups(alloc) {
        Ok(groups) => write_document(room, name, GroupLines { groups }),
        Err(_) => Err(WriteFault::NoMemory),
    }
}

/// Writes the lines of a table's groups into the file `out`, and closes the log that the table is of.
#[tactic(auto, using(outside::proofs::Rooms::same_but_none, outside::proofs::Rooms::same_but_then))]
pub(crate) fn write_history<R: Room>(
    alloc: Global,
    room: &mut R,
    journal: &str,
    out: &str,
    table: &Matches,
    history: JournalScan<R::Log>,
) -> Result<(), WriteFault>
    requires opened { (R.seen room.old).open_as journal.now ≡ Some AsLog }
    requires free { (R.seen room.old).open_as out.now ≡ None }

    // The room: nothing but these two changes, and both are closed.
    ensures apart { SameBut (R.seen room.old) (R.seen room.new) (journal.now ∷ out.now ∷ []) }
    ensures closed { (R.seen room.new).open_as journal.now ≡ None }

    // The output, as `write_table` leaves it.
    ensures output { IsOutput (R.seen room.old) (R.seen room.new) out.now (lines_of (matches_of table.now)) result }
    ensures memory { IsErrOf result WriteFault.NoMemory → SameBut (R.seen room.old) (R.seen room.new) (journal.now ∷ []) }
    ensures bytes { OnOk result ((R.seen room.old).tells ≡ true →
        (R.seen room.new).file out.now ≡ Some (lines_of (matches_of table.now))) }

    // The log and its file are what the opening left.
    ensures log { (R.seen room.old).tells ≡ true → IsClosedDisk (R.Log.seen history.journal.disk) (R.seen room.new) journal.now }
{
    let written = write_table(alloc, room, out, table);
    close_history(room, journal, history);
    written
}
