//! How the commands end whose files were loaded whole.
ghost use Rattle.std.specs.Prelude.{◌≡◌, ℕ, List, [], ◌∷◌, None};
ghost use Rattle.command_words.specs.Command.{AreNames};
ghost use Rattle.console_lines.specs.Ends.{outcome};
ghost use Rattle.durable_catalogue.specs.Views.{durable_view};
ghost use Rattle.outside.specs.Room.{SameBut};
ghost use Rattle.loading_commands.specs.Outcomes.{HasLoaded};
ghost use Rattle.loading_commands.specs.Loading.{Loads, Runs};

use crate::journal::LoadedJournal;
use crate::outputs::write_outputs;
use crate::texts::{files_text, has_refused};
use command_words::Outputs;
use console_lines::{End, Fault, end_of_outputs, tell, tell_result};
use journal_files::close_journal;
use marc_types::NoMemory;
use outside::Room;
use std::alloc::Global;

/// Ends `load`.
pub fn end_load<R: Room>(
    alloc: Global,
    loaded: LoadedJournal<'_, R>,
    room: &mut R,
    console: &mut R::Out,
) -> End
    requires free { (name : List ℕ) → (R.seen loaded.before.value).open_as name ≡ None }
    requires apart { SameBut (R.seen loaded.before.value) (R.seen room.old) (loaded.asked.journal.now ∷ []) }
    requires loaded { HasLoaded (R.seen loaded.before.value) (R.seen room.old) loaded.asked.journal.now loaded.asked.libraries
        (durable_view loaded.durable) loaded.results }
    ensures closed { (name : List ℕ) → (R.seen room.new).open_as name ≡ None }
    ensures apart { SameBut (R.seen loaded.entry.before.value) (R.seen room.new) (loaded.entry.asked.journal.now ∷ []) }
    ensures ends { Loads loaded.entry.asked.libraries loaded.entry.asked.journal.now
        (outcome R.seen R.Out.written R.Out.faults loaded.entry.before.value room.new console.old console.new result) }
{
    let LoadedJournal {
        asked,
        durable,
        results,
        before: _before,
    } = loaded;
    durable.is_within_limits();
    let libraries = asked.libraries.as_slice();
    let text = files_text(alloc, libraries, results.as_slice());
    close_journal(room, asked.journal, durable);
    match text {
        Ok(text) => tell_result(console, text.as_str(), has_refused(results.as_slice())),
        Err(NoMemory) => tell(console, Fault::Memory),
    }
}

/// Ends `run`: writes the export of the journal's history into the file OUT, and then its report into the file REPORT.
pub fn end_run<R: Room>(
    alloc: Global,
    loaded: LoadedJournal<'_, R>,
    outputs: Outputs<'_>,
    room: &mut R,
    console: &mut R::Out,
) -> End
    requires free { (name : List ℕ) → (R.seen loaded.before.value).open_as name ≡ None }
    requires apart { SameBut (R.seen loaded.before.value) (R.seen room.old) (loaded.asked.journal.now ∷ []) }
    requires loaded { HasLoaded (R.seen loaded.before.value) (R.seen room.old) loaded.asked.journal.now loaded.asked.libraries
        (durable_view loaded.durable) loaded.results }
    requires names { AreNames (loaded.asked.journal.now ∷ outputs.out.now ∷ outputs.report.now ∷ []) }
    ensures closed { (name : List ℕ) → (R.seen room.new).open_as name ≡ None }
    ensures apart { SameBut (R.seen loaded.entry.before.value) (R.seen room.new)
        (loaded.entry.asked.journal.now ∷ outputs.entry.out.now ∷ outputs.entry.report.now ∷ []) }
    ensures ends { Runs loaded.entry.asked.libraries loaded.entry.asked.journal.now outputs.entry.out.now outputs.entry.report.now
        (outcome R.seen R.Out.written R.Out.faults loaded.entry.before.value room.new console.old console.new result) }
{
    let LoadedJournal {
        asked,
        durable,
        results,
        before: _before,
    } = loaded;
    let Outputs { out, report } = outputs;
    durable.is_within_limits();
    let libraries = asked.libraries.as_slice();
    let text = match files_text(alloc, libraries, results.as_slice()) {
        Ok(text) => text,
        Err(NoMemory) => {
            close_journal(room, asked.journal, durable);
            return tell(console, Fault::Memory);
        }
    };
    let written = write_outputs(alloc, room, out, report, durable.core());
    close_journal(room, asked.journal, durable);
    let refused = has_refused(results.as_slice());
    end_of_outputs(console, written, text.as_str(), refused)
}
