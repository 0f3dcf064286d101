//! How the commands that load files into a journal begin and end.
ghost use Rattle.std.specs.Prelude.{◌≡◌, ℕ, List, [], ◌∷◌, None, IfOk, IfErr, OnOk, OnErr};
ghost use Rattle.command_words.specs.Command.{names_of};
ghost use Rattle.command_words.specs.Asked.{load_asked};
ghost use Rattle.console_lines.specs.Ends.{TellsNoFault, outcome};
ghost use Rattle.durable_catalogue.specs.Views.{durable_view};
ghost use Rattle.outside.specs.Room.{SameBut};
ghost use Rattle.loading_commands.specs.Inputs.{IsProper};
ghost use Rattle.loading_commands.specs.Outcomes.{HasBegun, IsWaiting, HasRead};
ghost use Rattle.loading_commands.specs.Loading.{EndsLoading};

use crate::ending::{end_load, end_run};
use crate::journal::{Loaded, Loading, finish};
use command_words::LoadRequest;
use console_lines::{End, tell};
use outside::Room;
use std::alloc::Global;

/// Begins the command that a request asks for: opens the journal and the files. With a fault all is closed again, the console is
/// told, and the command has ended.
pub fn begin<'a, R: Room>(
    alloc: Global,
    asked: LoadRequest<'a>,
    room: &mut R,
    console: &mut R::Out,
) -> Result<Loading<'a, R>, End>
    requires free { (name : List ℕ) → (R.seen room.old).open_as name ≡ None }
    requires proper { IsProper asked }

    // What is asked for was begun in this room, and the console is told nothing.
    ensures asked { IfOk result (λ l. l.asked ≡ asked.entry) }
    ensures before { IfOk result (λ l. l.before.value ≡ room.old) }
    ensures begun { IfOk result (λ l. HasBegun R.In.left R.In.faults (R.seen l.before.value) l.asked (durable_view l.durable) l.inputs) }
    ensures waiting { IfOk result (λ l. IsWaiting (R.seen l.before.value) (R.seen room.new) l.asked.journal.now) }
    ensures silent { OnOk result (console.new ≡ console.old) }

    // Or the command has ended, with a fault that was told.
    ensures told { IfErr result (λ end. TellsNoFault end → ⊥) }
    ensures closed { OnErr result ((name : List ℕ) → (R.seen room.new).open_as name ≡ None) }
    ensures apart { OnErr result (SameBut (R.seen room.old) (R.seen room.new) (names_of (load_asked asked.entry))) }
    ensures ends { IfErr result (λ end. EndsLoading asked.entry
        (outcome R.seen R.Out.written R.Out.faults room.old room.new console.old console.new end)) }
{
    match crate::journal::begin(alloc, room, asked) {
        Ok(loading) => Ok(loading),
        Err(fault) => Err(tell(console, fault)),
    }
}

/// Ends the command of a loading whose files were loaded: closes the files, writes the export and the report of the journal's history
/// where they were asked for, closes the journal, and tells the console the files' lines.
pub fn end<R: Room>(alloc: Global, loaded: Loaded<'_, R>, room: &mut R, console: &mut R::Out) -> End
    requires read { HasRead R.In.left R.In.faults (R.seen loaded.before.value) loaded.asked (durable_view loaded.durable) loaded.inputs loaded.results }
    requires waiting { IsWaiting (R.seen loaded.before.value) (R.seen room.old) loaded.asked.journal.now }
    ensures closed { (name : List ℕ) → (R.seen room.new).open_as name ≡ None }

    // Since the room was as before the command began, it changed nothing else, and ended as it does.
    ensures apart { SameBut (R.seen loaded.entry.before.value) (R.seen room.new) (names_of (load_asked loaded.entry.asked)) }
    ensures ends { EndsLoading loaded.entry.asked
        (outcome R.seen R.Out.written R.Out.faults loaded.entry.before.value room.new console.old console.new result) }
{
    let loaded = match finish(room, loaded) {
        Ok(loaded) => loaded,
        Err(fault) => return tell(console, fault),
    };
    let outputs = loaded.asked.outputs;
    match outputs {
        None => end_load(alloc, loaded, room, console),
        Some(outputs) => end_run(alloc, loaded, outputs, room, console),
    }
}
