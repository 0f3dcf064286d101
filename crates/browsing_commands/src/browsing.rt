//! How the command begins, and the loading with a reader beside it.
ghost use Rattle.std.specs.Prelude.{◌≡◌, ◌≤◌, ◌∷◌, ℕ, List, [], Some, None, length, Ok, IfOk, IfErr, OnOk, OnErr};
ghost use Rattle.outside.specs.Room.{SameBut};
ghost use Rattle.command_words.specs.Command.{AreNames, names_of};
ghost use Rattle.command_words.specs.Asked.{browse_asked};
ghost use Rattle.console_lines.specs.Ends.{outcome};
ghost use Rattle.durable_catalogue.specs.Views.{durable_view};
ghost use Rattle.heading_rows.specs.Listing.{table_of};
ghost use Rattle.loading_commands.specs.Inputs.{IsProper};
ghost use Rattle.loading_commands.specs.Outcomes.{HasBegun, IsWaiting, HasRead};
ghost use Rattle.browsing_commands.specs.Browses.{Browses};
ghost use Rattle.browsing_commands.specs.Browsing.{run_of, HasPaged};
ghost use Rattle.browsing_commands.specs.Pages.{ArePagesOf};

use crate::gathering::{BrowsePages, pages_of};
use crate::paging::PageKeeper;
use crate::standing::standing_tables;
use browse_readers::{BrowseWriter, Naming, Opened, open_browse};
use command_words::{BrowseRequest, LoadRequest, Outputs};
use console_lines::End;
use heading_rows::Table;
use loading_commands::{FollowedLoad, Loaded, Loading, give_up, load_followed};
use marc_types::NoMemory;
use outside::{Gate, Room};
use std::alloc::Global;
use std::marker::Brand;
use std::mem;
use std::sync::Wait;
use std::thread::Threads;

/// What is loaded into a journal while a reader pages through its headings: the loading, and the names of the outputs, which are
/// apart. `begin` alone makes one.
pub struct Browsing<'a, R: Room> {
    loading: Loading<'a, R>,
    outputs: Outputs<'a>,
    pages: &'a str,
}

/// The same when it was loaded, with the pages that the reader got, if there was memory for them. `load` alone makes one.
pub struct Browsed<'a, R: Room> {
    pub(crate) loaded: Loaded<'a, R>,
    pub(crate) outputs: Outputs<'a>,
    pub(crate) pages: &'a str,
    pub(crate) got: Result<BrowsePages, NoMemory>,
}

impl<'a, R: Room> Browsing<'a, R> {
    /// The loading.
    pub fn loading(&self) -> &Loading<'a, R>
        ensures { result.now ≡ self.now.loading }
    {
        &self.loading
    }
}

impl<'a, R: Room> Browsed<'a, R> {
    /// What was loaded.
    pub fn loaded(&self) -> &Loaded<'a, R>
        ensures { result.now ≡ self.now.loaded }
    {
        &self.loaded
    }
}

/// Begins the command that a request asks for: opens the journal and the files. With a fault all is closed again, the console is
/// told, and the command has ended.
pub fn begin<'a, R: Room>(
    alloc: Global,
    asked: BrowseRequest<'a>,
    room: &mut R,
    console: &mut R::Out,
) -> Result<Browsing<'a, R>, End>
    requires free { (name : List ℕ) → (R.seen room.old).open_as name ≡ None }
    requires proper { IsProper (run_of asked) }
    requires names { AreNames (names_of (browse_asked asked)) }

    // What is asked for was begun in this room, and the console is told nothing.
    ensures asked { IfOk result (λ b. b.loading.asked ≡ run_of asked.entry) }
    ensures outputs { IfOk result (λ b. b.outputs ≡ asked.entry.outputs) }
    ensures pages { IfOk result (λ b. b.pages ≡ asked.entry.pages) }
    ensures names { IfOk result (λ b. AreNames (b.loading.asked.journal.now ∷ b.outputs.out.now ∷ b.outputs.report.now ∷ b.pages.now ∷ [])) }
    ensures before { IfOk result (λ b. b.loading.before.value ≡ room.old) }
    ensures begun { IfOk result (λ b.
        HasBegun R.In.left R.In.faults (R.seen b.loading.before.value) b.loading.asked (durable_view b.loading.durable) b.loading.inputs) }
    ensures waiting { IfOk result (λ b. IsWaiting (R.seen b.loading.before.value) (R.seen room.new) b.loading.asked.journal.now) }
    ensures silent { OnOk result (console.new ≡ console.old) }

    // Or the command has ended.
    ensures closed { OnErr result ((name : List ℕ) → (R.seen room.new).open_as name ≡ None) }
    ensures apart { OnErr result (SameBut (R.seen room.old) (R.seen room.new) (names_of (browse_asked asked.entry))) }
    ensures ends { IfErr result (λ end. Browses asked.entry.libraries asked.entry.journal.now asked.entry.outputs.out.now
        asked.entry.outputs.report.now asked.entry.pages.now (outcome R.seen R.Out.written R.Out.faults room.old room.new console.old console.new end)) }
{
    let BrowseRequest {
        journal,
        libraries,
        outputs,
        pages,
    } = asked;
    let run = LoadRequest {
        journal,
        libraries,
        outputs: Some(outputs),
    };
    match loading_commands::begin(alloc, run, room, console) {
        Ok(loading) => Ok(Browsing {
            loading,
            outputs,
            pages,
        }),
        Err(end) => Err(end),
    }
}

/// The pages of what was loaded, where the writer took all of it.
fn gathered<J: Naming, R: Wait + Drop>(
    alloc: Global,
    writer: BrowseWriter<J, R>,
    told: Result<(), NoMemory>,
    keeper: PageKeeper<J>,
    least: u64,
) -> Result<BrowsePages, NoMemory>
    requires { OnOk told (least ≤ length writer.taken) }
    ensures { IfOk result (λ pages. (told ≡ Ok tt) × ArePagesOf least writer.taken pages) }
{
    told?;
    let kept = keeper.into_pages()?;
    let mut writer = writer;
    let pages = pages_of(alloc, &mut writer, kept, least);
    // The tables stay taken until the process ends, as the catalogue does: to give each row back takes long.
    mem::forget(writer);
    pages
}

/// Loads the files, under a list of that name, with a reader of these tables beside.
fn load_named<'a, J: Naming + Send + Sync, H: Threads + Wait + Sync, R: Room, G: Gate + Sync>(
    rt: &H,
    alloc: Global,
    loading: Loading<'a, R>,
    gate: &G,
    opened: Opened,
    tables: (Table, Table),
) -> (Loaded<'a, R>, Result<BrowsePages, NoMemory>)
    requires begun { HasBegun R.In.left R.In.faults (R.seen loading.before.value) loading.asked (durable_view loading.durable) loading.inputs }
    requires book { opened.seen.book ≡ J.book }
    requires base { J.base ≡ loading.durable.core.history }
    requires tables { (tables.0 ≡ table_of J.base) × (tables.1 ≡ table_of J.base) }
    ensures asked { result.0.asked ≡ loading.entry.asked }
    ensures before { result.0.before.value ≡ loading.entry.before.value }
    ensures read { HasRead R.In.left R.In.faults (R.seen result.0.before.value) result.0.asked (durable_view result.0.durable) result.0.inputs result.0.results }
    ensures paged { HasPaged (durable_view result.0.durable) result.1 }
{
    let least = loading.catalogue().history_len();
    let Ok((writer, readers)) = open_browse::<J, &H>(alloc, rt, opened, tables, 1) else {
        return (give_up(loading), Err(NoMemory));
    };
    let Some(reader) = readers.into_vec().pop() else {
        return (give_up(loading), Err(NoMemory));
    };
    let keeper = PageKeeper::new(alloc, reader);
    let FollowedLoad {
        loaded,
        taker,
        told,
        pager,
    } = load_followed(rt, alloc, loading, gate, writer, keeper);
    let got = gathered(alloc, taker, told, pager, least);
    (loaded, got)
}

/// Loads the files, with a reader beside.
fn load_beside<'a, H: Threads + Wait + Sync, R: Room, G: Gate + Sync>(
    rt: &H,
    alloc: Global,
    loading: Loading<'a, R>,
    gate: &G,
) -> (Loaded<'a, R>, Result<BrowsePages, NoMemory>)
    requires begun { HasBegun R.In.left R.In.faults (R.seen loading.before.value) loading.asked (durable_view loading.durable) loading.inputs }
    ensures asked { result.0.asked ≡ loading.entry.asked }
    ensures before { result.0.before.value ≡ loading.entry.before.value }
    ensures read { HasRead R.In.left R.In.faults (R.seen result.0.before.value) result.0.asked (durable_view result.0.durable) result.0.inputs result.0.results }
    ensures paged { HasPaged (durable_view result.0.durable) result.1 }
{
    match standing_tables(alloc, loading.catalogue()) {
        Ok(tables) => {
            load_named::<Brand, H, R, G>(rt, alloc, loading, gate, Opened::new(), tables)
        }
        Err(NoMemory) => (give_up(loading), Err(NoMemory)),
    }
}

/// Loads the files of a loading side by side, while a reader pages through the headings. It has no room and no console: whatever it waits
/// for, all that it can do to a file is to append commits to the journal.
pub fn load<'a, H: Threads + Wait + Sync, R: Room, G: Gate + Sync>(
    rt: &H,
    alloc: Global,
    browsing: Browsing<'a, R>,
    gate: &G,
) -> Browsed<'a, R>
    requires begun { HasBegun R.In.left R.In.faults (R.seen browsing.loading.before.value) browsing.loading.asked
        (durable_view browsing.loading.durable) browsing.loading.inputs }
    requires names { AreNames (browsing.loading.asked.journal.now ∷ browsing.outputs.out.now ∷ browsing.outputs.report.now ∷ browsing.pages.now ∷ []) }
    ensures names { AreNames (result.loaded.asked.journal.now ∷ result.outputs.out.now ∷ result.outputs.report.now ∷ result.pages.now ∷ []) }
    ensures asked { result.loaded.asked ≡ browsing.entry.loading.asked }
    ensures outputs { result.outputs ≡ browsing.entry.outputs }
    ensures pages { result.pages ≡ browsing.entry.pages }
    ensures before { result.loaded.before.value ≡ browsing.entry.loading.before.value }

    // A room that waits for what is loaded waits for what was: so clauses above say, and a caller is spared the step.
    ensures waiting { (now : R) → IsWaiting (R.seen browsing.entry.loading.before.value) (R.seen now) browsing.entry.loading.asked.journal.now →
        IsWaiting (R.seen result.loaded.before.value) (R.seen now) result.loaded.asked.journal.now }

    // Its inputs were read, and its pages are of all that was loaded.
    ensures read { HasRead R.In.left R.In.faults (R.seen result.loaded.before.value) result.loaded.asked (durable_view result.loaded.durable)
        result.loaded.inputs result.loaded.results }
    ensures paged { HasPaged (durable_view result.loaded.durable) result.got }
{
    let Browsing {
        loading,
        outputs,
        pages,
    } = browsing;
    let (loaded, got) = load_beside(rt, alloc, loading, gate);
    Browsed {
        loaded,
        outputs,
        pages,
        got,
    }
}
