//! How the command ends.
ghost use Rattle.std.specs.Prelude.{◌≡◌, ℕ, List, [], ◌∷◌, length, string_bytes, true, Some, None, OnOk, IfOk, IfErr};
ghost use Rattle.command_words.specs.Command.{AreNames};
ghost use Rattle.console_lines.specs.Ends.{outcome};
ghost use Rattle.durable_catalogue.specs.Views.{durable_view};
ghost use Rattle.outside.specs.Room.{SameBut};
ghost use Rattle.loading_commands.specs.Outcomes.{HasLoaded, HasRead, IsWaiting};
ghost use Rattle.loading_commands.specs.Runs.{AreOutputs};
ghost use Rattle.loading_commands.specs.Texts as texts;
ghost use Rattle.browsing_commands.specs.Browses.{Browses, AreUnpaged};
ghost use Rattle.browsing_commands.specs.Browsing.{HasPaged, IsTextOf};

use crate::browsing::Browsed;
use crate::gathering::BrowsePages;
use crate::lines::pages_text;
use catalogue_core::Catalogue;
use command_words::{Library, Outputs};
use console_lines::{End, Fault, OutputsFault, Unwritten, end_of_outputs, tell};
use journal_files::close_journal;
use loader_workers::FileResult;
use loading_commands::{LoadedJournal, files_text, finish, has_refused, write_outputs};
use marc_types::NoMemory;
use output_files::write_document;
use outside::Room;
use std::alloc::Global;

/// What the console is told of the files, and the lines of the pages. All memory for them is taken here.
fn texts_of(
    alloc: Global,
    libraries: &[Library],
    results: &[FileResult],
    got: Result<BrowsePages, NoMemory>,
) -> Result<(String, Vec<u8>), NoMemory>
    requires { length libraries.now ≡ length results.now }
    ensures console { IfOk result (λ both. string_bytes both.0 ≡ texts.files_text libraries.now results.now) }
    ensures lines { IfOk result (λ both. IsTextOf got both.1.items) }
{
    let pages = got?;
    let text = files_text(alloc, libraries, results)?;
    let lines = pages_text(alloc, pages.as_slice())?;
    Ok((text, lines))
}

/// Writes the export of a catalogue into the file OUT, then its report into the file REPORT, and then these lines into the file PAGES.
fn write_all<R: Room>(
    alloc: Global,
    room: &mut R,
    outputs: Outputs<'_>,
    pages: &str,
    core: &Catalogue,
    lines: Vec<u8>,
) -> Result<(), OutputsFault>
    requires free { (R.seen room.old).open_as outputs.out.now ≡ None }
    requires report_free { (R.seen room.old).open_as outputs.report.now ≡ None }
    requires pages_free { (R.seen room.old).open_as pages.now ≡ None }
    requires names { AreNames (outputs.out.now ∷ outputs.report.now ∷ pages.now ∷ []) }
    requires staged { core.now.staged ≡ [] }
    ensures apart { SameBut (R.seen room.old) (R.seen room.new) (outputs.entry.out.now ∷ outputs.entry.report.now ∷ pages.now ∷ []) }
    ensures closed { (R.seen room.new).open_as outputs.entry.out.now ≡ None }
    ensures report_closed { (R.seen room.new).open_as outputs.entry.report.now ≡ None }
    ensures pages_closed { (R.seen room.new).open_as pages.now ≡ None }
    ensures whole { OnOk result ((R.seen room.old).tells ≡ true → AreOutputs (R.seen room.new) outputs.entry.out.now outputs.entry.report.now core.now.history) }
    ensures paged { OnOk result ((R.seen room.old).tells ≡ true → (R.seen room.new).file pages.now ≡ Some lines.items) }
    ensures unwritten { IfErr result (AreUnpaged (R.seen room.old) (R.seen room.new) outputs.entry.out.now outputs.entry.report.now pages.now core.now.history lines.items) }
{
    let Outputs { out, report } = outputs;
    write_outputs(alloc, room, out, report, core)?;
    match write_document(room, pages, lines) {
        Ok(()) => Ok(()),
        Err(_) => Err(OutputsFault::Unwritten(Unwritten::Pages)),
    }
}

/// Ends the command, where all files were loaded whole.
fn end_whole<R: Room>(
    alloc: Global,
    loaded: LoadedJournal<'_, R>,
    outputs: Outputs<'_>,
    pages: &str,
    got: Result<BrowsePages, NoMemory>,
    room: &mut R,
    console: &mut R::Out,
) -> End
    requires free { (name : List ℕ) → (R.seen loaded.before.value).open_as name ≡ None }
    requires apart { SameBut (R.seen loaded.before.value) (R.seen room.old) (loaded.asked.journal.now ∷ []) }
    requires loaded { HasLoaded (R.seen loaded.before.value) (R.seen room.old) loaded.asked.journal.now loaded.asked.libraries
        (durable_view loaded.durable) loaded.results }
    requires names { AreNames (loaded.asked.journal.now ∷ outputs.out.now ∷ outputs.report.now ∷ pages.now ∷ []) }
    requires paged { HasPaged (durable_view loaded.durable) got }
    ensures closed { (name : List ℕ) → (R.seen room.new).open_as name ≡ None }
    ensures apart { SameBut (R.seen loaded.entry.before.value) (R.seen room.new)
        (loaded.entry.asked.journal.now ∷ outputs.entry.out.now ∷ outputs.entry.report.now ∷ pages.now ∷ []) }
    ensures ends { Browses loaded.entry.asked.libraries loaded.entry.asked.journal.now outputs.entry.out.now outputs.entry.report.now pages.now
        (outcome R.seen R.Out.written R.Out.faults loaded.entry.before.value room.new console.old console.new result) }
{
    let LoadedJournal {
        asked,
        durable,
        results,
        before: _before,
    } = loaded;
    durable.is_within_limits();
    let libraries = asked.libraries.as_slice();
    let (text, lines) = match texts_of(alloc, libraries, results.as_slice(), got) {
        Ok(both) => both,
        Err(NoMemory) => {
            close_journal(room, asked.journal, durable);
            return tell(console, Fault::Memory);
        }
    };
    let written = write_all(alloc, room, outputs, pages, durable.core(), lines);
    close_journal(room, asked.journal, durable);
    let refused = has_refused(results.as_slice());
    end_of_outputs(console, written, text.as_str(), refused)
}

/// Ends the command: closes the files, writes the export and the report of the journal's history and the pages, closes the journal, and
/// tells the console the files' lines.
pub fn end<R: Room>(
    alloc: Global,
    browsed: Browsed<'_, R>,
    room: &mut R,
    console: &mut R::Out,
) -> End
    requires read { HasRead R.In.left R.In.faults (R.seen browsed.loaded.before.value) browsed.loaded.asked (durable_view browsed.loaded.durable)
        browsed.loaded.inputs browsed.loaded.results }
    requires waiting { IsWaiting (R.seen browsed.loaded.before.value) (R.seen room.old) browsed.loaded.asked.journal.now }
    requires paged { HasPaged (durable_view browsed.loaded.durable) browsed.got }
    requires names { AreNames (browsed.loaded.asked.journal.now ∷ browsed.outputs.out.now ∷ browsed.outputs.report.now ∷ browsed.pages.now ∷ []) }
    ensures closed { (name : List ℕ) → (R.seen room.new).open_as name ≡ None }

    // Since the room was as before the command began, it changed nothing else, and ended as it does.
    ensures apart { SameBut (R.seen browsed.entry.loaded.before.value) (R.seen room.new)
        (browsed.entry.loaded.asked.journal.now ∷ browsed.entry.outputs.out.now ∷ browsed.entry.outputs.report.now ∷ browsed.entry.pages.now ∷ []) }
    ensures ends { Browses browsed.entry.loaded.asked.libraries browsed.entry.loaded.asked.journal.now browsed.entry.outputs.out.now
        browsed.entry.outputs.report.now browsed.entry.pages.now
        (outcome R.seen R.Out.written R.Out.faults browsed.entry.loaded.before.value room.new console.old console.new result) }
{
    let Browsed {
        loaded,
        outputs,
        pages,
        got,
    } = browsed;
    match finish(room, loaded) {
        Ok(loaded) => end_whole(alloc, loaded, outputs, pages, got, room, console),
        Err(fault) => tell(console, fault),
    }
}
