//! The list and the page, as documents.
ghost use Rattle.std.specs.Prelude.{◌≡◌, ◌≢◌, ◌∷◌, [], true, None, IsErrOf, OnOk};
ghost use Rattle.outside.specs.Room.{SameBut};
ghost use Rattle.output_files.specs.Outputs.{AreWritten};
ghost use Rattle.worklist_command.specs.Working.{LeavesList, StopsBoth, list_due_by, page_due};

use catalogue_core::{Catalogue, Engine};
use console_lines::{OutputsFault, Unwritten};
use heading_worklist::{Counted, counted_in_order, open_headings, write_worklist};
use output_files::{Document, write_document};
use outside::{Room, Sink, WriteFault};
use std::alloc::Global;
use std::collections::BTreeSet;
use worklist_page::{Brought, page_bytes};

/// The lines of open headings that were counted, and of authorities, as a document: each line is made when it is written.
#[derive(Drop)]
struct ListLines<'a> {
    alloc: Global,
    engine: &'a Engine,
    lines: BTreeSet<Counted<'a>>,
    code: Option<&'a str>,
}

impl<'a> Document for ListLines<'a> {
    ghost use Rattle.heading_worklist.specs.Written.{worklist_bytes};

    ghost due = { λ d. worklist_bytes d.code d.engine.now.state d.lines.keys };

    ghost takes_memory = { λ _. Unit {0} };

    fn write_to<K: Sink>(self, out: &mut K) -> Result<(), WriteFault> {
        write_worklist(self.alloc, self.engine, &self.lines, self.code, out)
    }
}

/// Writes two documents into the files of these names, the second only once the first is whole. The second takes no memory then.
#[tactic(auto, using(output_files::proofs::Pairs::both_apart, output_files::proofs::Pairs::first_apart))]
fn write_two<R: Room, A: Document, B: Document>(
    room: &mut R,
    list: &str,
    first: A,
    page: &str,
    second: B,
) -> Result<(), OutputsFault>
    requires free { (R.seen room.old).open_as list.now ≡ None }
    requires page_free { (R.seen room.old).open_as page.now ≡ None }
    requires differ { list.now ≢ page.now }
    requires ready { B.takes_memory second → ⊥ }
    ensures apart { SameBut (R.seen room.old) (R.seen room.new) (list.now ∷ page.now ∷ []) }
    ensures closed { (R.seen room.new).open_as list.now ≡ None }
    ensures page_closed { (R.seen room.new).open_as page.now ≡ None }
    ensures written { OnOk result ((R.seen room.old).tells ≡ true →
        AreWritten list.now page.now (A.due first) (B.due second) (R.seen room.new)) }
    ensures memory { IsErrOf result OutputsFault.NoMemory → LeavesList list.now (R.seen room.old) (R.seen room.new) }
    ensures stopped { StopsBoth list.now page.now (A.due first) (B.due second) (R.seen room.old) (R.seen room.new) result }
{
    match write_document(room, list, first) {
        Ok(()) => {}
        Err(WriteFault::NoMemory) => return Err(OutputsFault::NoMemory),
        Err(WriteFault::OutputFault) => return Err(OutputsFault::Unwritten(Unwritten::Out)),
    }
    match write_document(room, page, second) {
        Ok(()) => Ok(()),
        Err(_) => Err(OutputsFault::Unwritten(Unwritten::Side)),
    }
}

/// Writes the worklist of a catalogue into the file `list`, all lines or those of the records with a code, and then its page into the file
/// `page`. The page and the order of the lines are made before either is begun; a line takes memory when it is written.
#[tactic(auto, using(outside::proofs::Rooms::same_but_itself, outside::proofs::Rooms::untouched_itself))]
pub(crate) fn write_both<R: Room>(
    alloc: Global,
    room: &mut R,
    list: &str,
    page: &str,
    core: &Catalogue,
    brought: &Brought,
    code: Option<&str>,
) -> Result<(), OutputsFault>
    requires free { (R.seen room.old).open_as list.now ≡ None }
    requires page_free { (R.seen room.old).open_as page.now ≡ None }
    requires differ { list.now ≢ page.now }
    requires staged { core.now.staged ≡ [] }
    ensures apart { SameBut (R.seen room.old) (R.seen room.new) (list.now ∷ page.now ∷ []) }
    ensures closed { (R.seen room.new).open_as list.now ≡ None }
    ensures page_closed { (R.seen room.new).open_as page.now ≡ None }
    ensures written { OnOk result ((R.seen room.old).tells ≡ true → AreWritten list.now page.now
        (list_due_by code.entry core.now.history) (page_due core.now.history brought.now) (R.seen room.new)) }
    ensures memory { IsErrOf result OutputsFault.NoMemory → LeavesList list.now (R.seen room.old) (R.seen room.new) }
    ensures stopped { StopsBoth list.now page.now (list_due_by code.entry core.now.history) (page_due core.now.history brought.now)
        (R.seen room.old) (R.seen room.new) result }
{
    let engine = core.engine();
    let Ok(found) = open_headings(alloc, engine) else {
        return Err(OutputsFault::NoMemory);
    };
    let Ok(lines) = counted_in_order(alloc, &found) else {
        return Err(OutputsFault::NoMemory);
    };
    let Ok(shown) = page_bytes(alloc, engine, &lines, brought) else {
        return Err(OutputsFault::NoMemory);
    };
    let listed = ListLines {
        alloc,
        engine,
        lines,
        code,
    };
    write_two(room, list, listed, page, shown)
}
