//! A command's files, loaded into a journal in three calls: one that opens, one that loads, and one that closes. The call that loads
//! has no room: so whatever it waits for, it can't harm a file.
ghost use Rattle.std.specs.Prelude.{◌≡◌, ℕ, List, true, Some, None, All, ◌∷◌, [], IfOk, IfErr, OnOk, OnErr};
ghost use mathlib.Core.List.{IsPrefix};
ghost use Rattle.outside.specs.Room.{AsLog, SameBut};
ghost use Rattle.durable_catalogue.specs.Views.{durable_view};
ghost use Rattle.journal_files.specs.Journals.{IsOpenedAs};
ghost use Rattle.loading_commands.specs.Inputs.{AreLoadable, AreInputs, IsFresh, IsProper};
ghost use Rattle.loading_commands.specs.Outcomes.{IsUnbegun, IsLoadingFault, IsFinished, IsClosedBy, IsFileMissing, HasSameHistory, HasBegun, IsWaiting, Reads, HasRead, HasLoaded, Fails};

use crate::faults::loading_fault;
use crate::inputs::{close_inputs, open_inputs};
use catalogue_core::Catalogue;
use command_words::{Libraries, Library, LoadRequest};
use console_lines::Fault;
use durable_catalogue::{Durable, Effects};
use heading_rows::HeadingTaker;
use journal_files::{close_journal, fault_of_opening, open_journal};
use loader_workers::{Followed, InputFiles, Pager, Results, load_files, load_files_followed};
use marc_types::NoMemory;
use outside::{Gate, Room};
use std::alloc::Global;
use std::snapshot::Snapshot;
use std::sync::Wait;
use std::thread::Threads;

/// What is loaded into a journal: what was asked for, the catalogue over the open journal, and the open files. For clauses, the room
/// as it was before. `begin` alone makes one.
pub struct Loading<'a, R: Room> {
    asked: LoadRequest<'a>,
    durable: Durable<R::Log>,
    inputs: InputFiles<R::In>,
    before: Snapshot<R>,
}

/// The same when it was loaded, with what came of it. `load` alone makes one.
pub struct Loaded<'a, R: Room> {
    asked: LoadRequest<'a>,
    durable: Durable<R::Log>,
    inputs: InputFiles<R::In>,
    results: Result<Results, NoMemory>,
    before: Snapshot<R>,
}

/// The catalogue over a journal into which files were loaded whole, and which is still open; and the results of the files.
pub struct LoadedJournal<'a, R: Room> {
    pub asked: LoadRequest<'a>,
    pub durable: Durable<R::Log>,
    pub results: Results,
    pub before: Snapshot<R>,
}

impl<'a, R: Room> Loading<'a, R> {
    /// The libraries of the files, in their order.
    pub fn libraries(&self) -> &Libraries
        ensures { result.now ≡ self.now.asked.libraries }
    {
        &self.asked.libraries
    }

    /// The catalogue over the journal.
    pub fn catalogue(&self) -> &Catalogue
        ensures value { result.now ≡ self.now.durable.core }
        ensures unstaged { result.now.staged ≡ [] }
    {
        self.durable.core()
    }
}

impl<'a, R: Room> Loaded<'a, R> {
    /// The libraries of the files, in their order.
    pub fn libraries(&self) -> &Libraries
        ensures { result.now ≡ self.now.asked.libraries }
    {
        &self.asked.libraries
    }

    /// What became of the files, in their order, or that there was no memory to begin them.
    pub fn results(&self) -> &Result<Results, NoMemory>
        ensures { result.now ≡ self.now.results }
    {
        &self.results
    }

    /// What the entries of the file at a place, counted from 0, did to the records under their keys.
    pub fn effects(&self, place: u32) -> Effects {
        self.durable.effects(place)
    }
}

/// What was loaded, what took the entries meanwhile, and what paged: `told` is that there was memory for all of these entries.
pub struct FollowedLoad<'a, R: Room, T, P> {
    pub loaded: Loaded<'a, R>,
    pub taker: T,
    pub told: Result<(), NoMemory>,
    pub pager: P,
}

/// Opens the journal, and then all files, in their order. With a fault all is closed again.
fn open_all<R: Room>(
    alloc: Global,
    room: &mut R,
    libraries: &[Library],
    journal: &str,
) -> Result<(Durable<R::Log>, InputFiles<R::In>), Fault>
    requires free { (name : List ℕ) → (R.seen room.old).open_as name ≡ None }
    requires loadable { AreLoadable journal.now libraries.now }
    ensures apart { SameBut (R.seen room.old) (R.seen room.new) (journal.now ∷ []) }
    ensures lefts { OnOk result ((R.seen room.new).lefts ≡ (R.seen room.old).lefts) }
    ensures opened { OnOk result ((R.seen room.new).open_as journal.now ≡ Some AsLog) }
    ensures catalogue { IfOk result (λ r. IsOpenedAs (R.seen room.old) journal.now (durable_view r.0)) }
    ensures inputs { IfOk result (λ r. AreInputs R.In.left (R.seen room.old) libraries.now r.1) }
    ensures fresh { IfOk result (λ r. All (IsFresh R.In.faults) r.1) }
    ensures failed { IfErr result (λ why. Fails (R.seen room.old) (R.seen room.new) journal.now libraries.now why
        (IsUnbegun (R.seen room.old) (R.seen room.new) journal.now libraries.now why)) }
{
    let durable = match open_journal(alloc, room, journal) {
        Ok(durable) => durable,
        Err(fault) => return Err(fault_of_opening(fault)),
    };
    let (inputs, fault) = open_inputs(alloc, room, libraries);
    let inputs = InputFiles::from_vec(inputs);
    match fault {
        None => Ok((durable, inputs)),
        Some(fault) => {
            close_inputs(room, libraries, inputs);
            close_journal(room, journal, durable);
            Err(fault)
        }
    }
}

/// Begins a loading: opens the journal and then 1 to 64 files, in their order. With a fault all is closed again, that of the journal
/// before that of a file.
pub(crate) fn begin<'a, R: Room>(
    alloc: Global,
    room: &mut R,
    asked: LoadRequest<'a>,
) -> Result<Loading<'a, R>, Fault>
    requires free { (name : List ℕ) → (R.seen room.old).open_as name ≡ None }
    requires proper { IsProper asked }

    // What is asked for was begun in this room.
    ensures asked { IfOk result (λ l. l.asked ≡ asked.entry) }
    ensures before { IfOk result (λ l. l.before.value ≡ room.old) }
    ensures begun { IfOk result (λ l. HasBegun R.In.left R.In.faults (R.seen l.before.value) l.asked (durable_view l.durable) l.inputs) }
    ensures waiting { IfOk result (λ l. IsWaiting (R.seen l.before.value) (R.seen room.new) l.asked.journal.now) }

    // Or it was not, and all is closed; where a file isn't there, the journal has the history that it had.
    ensures apart { OnErr result (SameBut (R.seen room.old) (R.seen room.new) (asked.entry.journal.now ∷ [])) }
    ensures failed { IfErr result (λ why. Fails (R.seen room.old) (R.seen room.new) asked.entry.journal.now asked.entry.libraries why
        (IsUnbegun (R.seen room.old) (R.seen room.new) asked.entry.journal.now asked.entry.libraries why)) }
    ensures missing { OnErr result ((R.seen room.old).tells ≡ true → IsFileMissing asked.entry.libraries (R.seen room.old) →
        HasSameHistory (R.seen room.old) (R.seen room.new) asked.entry.journal.now) }
{
    let before = Snapshot::of(room);
    let libraries = asked.libraries.as_slice();
    match open_all(alloc, room, libraries, asked.journal) {
        Ok((durable, inputs)) => Ok(Loading {
            asked,
            durable,
            inputs,
            before,
        }),
        Err(fault) => Err(fault),
    }
}

/// Loads the files of a loading side by side. It has no room and no console: whatever it waits for, all that it can do to a file is
/// to append commits to the journal.
pub fn load<'a, H: Threads + Wait + Sync, R: Room, G: Gate + Sync>(
    rt: &H,
    alloc: Global,
    loading: Loading<'a, R>,
    gate: &G,
) -> Loaded<'a, R>
    requires begun { HasBegun R.In.left R.In.faults (R.seen loading.before.value) loading.asked (durable_view loading.durable) loading.inputs }
    ensures asked { result.asked ≡ loading.entry.asked }
    ensures before { result.before.value ≡ loading.entry.before.value }

    // A room that waits for what is loaded waits for what was: so the two clauses above say, and a caller is spared the step.
    ensures waiting { (now : R) → IsWaiting (R.seen loading.entry.before.value) (R.seen now) loading.entry.asked.journal.now →
        IsWaiting (R.seen result.before.value) (R.seen now) result.asked.journal.now }

    // Its own inputs were read into its own catalogue.
    ensures reads { Reads R.In.left R.In.faults (R.seen loading.entry.before.value) loading.entry.asked (durable_view loading.entry.durable)
        loading.entry.inputs (durable_view result.durable) result.inputs result.results }
    ensures read { HasRead R.In.left R.In.faults (R.seen result.before.value) result.asked (durable_view result.durable) result.inputs result.results }
{
    let Loading {
        asked,
        durable,
        inputs,
        before,
    } = loading;
    let (durable, inputs, results) = load_files(rt, alloc, durable, inputs, gate);
    Loaded {
        asked,
        durable,
        inputs,
        results,
        before,
    }
}

/// Loads the files as `load` does, and meanwhile hands what is committed on to what has taken what the catalogue has, beside what pages
/// through that. It has no room either.
pub fn load_followed<
    'a,
    H: Threads + Wait + Sync,
    R: Room,
    G: Gate + Sync,
    T: HeadingTaker + Send,
    P: Pager + Send,
>(
    rt: &H,
    alloc: Global,
    loading: Loading<'a, R>,
    gate: &G,
    taker: T,
    pager: P,
) -> FollowedLoad<'a, R, T, P>
    requires begun { HasBegun R.In.left R.In.faults (R.seen loading.before.value) loading.asked (durable_view loading.durable) loading.inputs }
    requires begins { T.taken taker ≡ loading.durable.core.history }
    requires takes { T.takes taker }
    requires page { P.can_page pager }
    ensures asked { result.loaded.asked ≡ loading.entry.asked }
    ensures before { result.loaded.before.value ≡ loading.entry.before.value }

    // Its own inputs were read into its own catalogue.
    ensures reads { Reads R.In.left R.In.faults (R.seen loading.entry.before.value) loading.entry.asked (durable_view loading.entry.durable)
        loading.entry.inputs (durable_view result.loaded.durable) result.loaded.inputs result.loaded.results }
    ensures read { HasRead R.In.left R.In.faults (R.seen result.loaded.before.value) result.loaded.asked (durable_view result.loaded.durable)
        result.loaded.inputs result.loaded.results }

    // All entries were taken, or, where there was no memory, a front of them.
    ensures all { OnOk result.told (T.taken result.taker ≡ result.loaded.durable.core.history) }
    ensures front { IsPrefix (T.taken result.taker) result.loaded.durable.core.history }
    ensures takes { OnOk result.told (T.takes result.taker) }
{
    let Loading {
        asked,
        durable,
        inputs,
        before,
    } = loading;
    let Followed {
        durable,
        files,
        results,
        taker,
        told,
        pager,
    } = load_files_followed(rt, alloc, durable, inputs, gate, taker, pager);
    FollowedLoad {
        loaded: Loaded {
            asked,
            durable,
            inputs: files,
            results,
            before,
        },
        taker,
        told,
        pager,
    }
}

/// A loading for which there is no memory: nothing is loaded.
pub fn give_up<'a, R: Room>(loading: Loading<'a, R>) -> Loaded<'a, R>
    requires begun { HasBegun R.In.left R.In.faults (R.seen loading.before.value) loading.asked (durable_view loading.durable) loading.inputs }
    ensures asked { result.asked ≡ loading.entry.asked }
    ensures before { result.before.value ≡ loading.entry.before.value }
    ensures read { HasRead R.In.left R.In.faults (R.seen result.before.value) result.asked (durable_view result.durable) result.inputs result.results }
{
    let Loading {
        asked,
        durable,
        inputs,
        before,
    } = loading;
    Loaded {
        asked,
        durable,
        inputs,
        results: Err(NoMemory),
        before,
    }
}

/// Closes the journal, unless all files were loaded whole.
fn close_unless_whole<R: Room>(
    room: &mut R,
    journal: &str,
    durable: Durable<R::Log>,
    results: Result<Results, NoMemory>,
) -> Result<(Durable<R::Log>, Results), Fault>
    requires { (R.seen room.old).open_as journal.now ≡ Some AsLog }
    ensures apart { SameBut (R.seen room.old) (R.seen room.new) (journal.now ∷ []) }
    ensures lefts { (R.seen room.new).lefts ≡ (R.seen room.old).lefts }
    ensures opened { OnOk result ((R.seen room.new).open_as journal.now ≡ Some AsLog) }
    ensures loaded { IfOk result (λ l. (l.0 ≡ durable) × IsFinished results l.1) }
    ensures closed { IfErr result (λ why. IsClosedBy why results (R.seen room.old) (R.seen room.new) journal.now (durable_view durable)) }
{
    match results {
        Err(NoMemory) => {
            close_journal(room, journal, durable);
            Err(Fault::Memory)
        }
        Ok(results) => match loading_fault(results.as_slice()) {
            Some(fault) => {
                close_journal(room, journal, durable);
                Err(fault)
            }
            None => Ok((durable, results)),
        },
    }
}

/// Closes the files of a loading, and the journal too, unless all were loaded whole. The first of these faults decides: a device's, a
/// full catalogue, a source's, want of memory.
pub fn finish<'a, R: Room>(
    room: &mut R,
    loaded: Loaded<'a, R>,
) -> Result<LoadedJournal<'a, R>, Fault>
    requires read { HasRead R.In.left R.In.faults (R.seen loaded.before.value) loaded.asked (durable_view loaded.durable) loaded.inputs loaded.results }
    requires waiting { IsWaiting (R.seen loaded.before.value) (R.seen room.old) loaded.asked.journal.now }
    ensures apart { SameBut (R.seen loaded.entry.before.value) (R.seen room.new) (loaded.entry.asked.journal.now ∷ []) }
    ensures asked { IfOk result (λ l. l.asked ≡ loaded.entry.asked) }
    ensures before { IfOk result (λ l. l.before.value ≡ loaded.entry.before.value) }
    ensures durable { IfOk result (λ l. l.durable ≡ loaded.entry.durable) }
    ensures loaded { IfOk result (λ l. HasLoaded (R.seen l.before.value) (R.seen room.new) l.asked.journal.now l.asked.libraries
        (durable_view l.durable) l.results) }
    ensures failed { IfErr result (λ why. Fails (R.seen loaded.entry.before.value) (R.seen room.new) loaded.entry.asked.journal.now
        loaded.entry.asked.libraries why
        (IsLoadingFault (R.seen loaded.entry.before.value) (R.seen room.new) loaded.entry.asked.journal.now loaded.entry.asked.libraries why)) }

    // Where a file isn't there, the journal has the history that it had.
    ensures missing { OnErr result ((R.seen loaded.entry.before.value).tells ≡ true →
        IsFileMissing loaded.entry.asked.libraries (R.seen loaded.entry.before.value) →
        HasSameHistory (R.seen loaded.entry.before.value) (R.seen room.new) loaded.entry.asked.journal.now) }
{
    let Loaded {
        asked,
        durable,
        inputs,
        results,
        before,
    } = loaded;
    let libraries = asked.libraries.as_slice();
    close_inputs(room, libraries, inputs);
    match close_unless_whole(room, asked.journal, durable, results) {
        Ok((durable, results)) => Ok(LoadedJournal {
            asked,
            durable,
            results,
            before,
        }),
        Err(fault) => Err(fault),
    }
}
