//! A reader keeps its table while files are loaded.
ghost use Rattle.std.specs.Prelude.{◌≡◌, ◌≢◌, ◌∷◌, ℕ, List, [], None, IfOk, IfSome, IsTrue};
ghost use Rattle.marc_types.specs.Valid.{is_code};
ghost use Rattle.durable_catalogue.specs.Views.{durable_view};
ghost use Rattle.loading_commands.specs.Inputs.{IsProper};
ghost use Rattle.loading_commands.specs.Outcomes.{HasBegun, HasRead, IsWaiting};
ghost use Rattle.outside_mem.specs.Room.{room_view};

use super::pieces::{first_page, opened};
use browse_readers::{BrowseReader, BrowseWriter, Naming, Opened, Shared, Window};
use command_words::{Libraries, Library, LoadRequest};
use console_lines::End;
use heading_rows::Table;
use loader_workers::{Meanwhile, Pager};
use loading_commands::{FollowedLoad, Loaded, Loading, begin, end, give_up, load_followed};
use marc_types::{NoMemory, Text, can_be_code};
use outside::{Gate, Room};
use outside_mem::{MemRoom, MemSink};
use std::alloc::Global;
use std::marker::Brand;
use std::sync::Wait;
use std::sync::atomic::{AtomicU64, Ordering};
use std::test::Fail;
use std::thread::{self, Threads};

/// Three books.
const RECORDS: &[u8] =
    b"00065nam a2200049 a 4500001000300000245001200003\x1eb1\x1e00\x1faAlgebra\x1e\x1d00065nam a2200049 a 4500001000300000245001200003\x1eb2\x1e00\x1faBiology\x1e\x1d00065nam a2200049 a 4500001000300000245001200003\x1eb3\x1e00\x1faZoology\x1e\x1d";

/// The yields after which a loader waits no longer.
const YIELDS: u32 = 10_000_000;

/// The rests of a millisecond after which a reader doesn't keep its table any longer.
const RESTS: u32 = 20_000;

/// What a loader waits for: that a reader has its table, and that another one is shown what was loaded meanwhile.
#[derive(Drop)]
struct Signs {
    kept: AtomicU64,
    shown: AtomicU64,
}

fn wait_for(sign: &AtomicU64) {
    for _ in 0..YIELDS {
        if sign.load(Ordering::SeqCst) != 0 {
            return;
        }
        thread::yield_now();
    }
}

/// The first piece waits until a table is kept, and the third until what came before is shown. Each entry has a turn of its own.
#[derive(Drop)]
struct Waits<'a> {
    signs: &'a Signs,
}

impl<'a> Gate for Waits<'a> {
    fn before(&self, _rt: &impl Wait, _loader: u32, ordinal: u64) {
        match ordinal {
            1 => wait_for(&self.signs.kept),
            3 => wait_for(&self.signs.shown),
            _ => {}
        }
    }

    fn ended(&self, _rt: &impl Wait, _loader: u32, _pieces: u64) {}

    fn batch(&self) -> u32 {
        1
    }
}

/// Two readers, of which the one keeps its table. Once the loaders have ended it notes how many entries that table is of.
#[derive(Drop)]
struct Keeper<'a, J: Naming> {
    alloc: Global,
    window: Shared<J>,
    other: BrowseReader<Shared<J>>,
    signs: &'a Signs,
    kept: Option<u64>,
}

/// Of how many entries the table is that a reader is shown; 0 where it is shown none.
fn shown<J: Naming>(alloc: Global, reader: &mut BrowseReader<Shared<J>>) -> u64 {
    match first_page(alloc, reader) {
        Ok(page) => page.upto,
        Err(_) => 0,
    }
}

/// Keeps a table until the loaders have ended, and tells of how many entries it is; nothing where it was kept in vain for so long.
fn keep<H: Wait, J: Naming>(
    rt: &H,
    meanwhile: &Meanwhile,
    alloc: Global,
    table: &Table,
    other: &mut BrowseReader<Shared<J>>,
    signs: &Signs,
) -> Option<u64> {
    signs.kept.store(1, Ordering::SeqCst);
    for _ in 0..RESTS {
        if meanwhile.is_over() {
            return Some(table.upto());
        }
        if shown(alloc, other) > 0 {
            signs.shown.store(1, Ordering::SeqCst);
        }
        meanwhile.rest(rt);
    }
    None
}

impl<'a, J: Naming> Pager for Keeper<'a, J> {
    ghost can_page = { λ _. Unit {0} };

    ghost has_paged = { λ _ _. Unit {0} };

    fn page_while<H: Wait>(&mut self, rt: &H, meanwhile: &Meanwhile) {
        let alloc = self.alloc;
        let signs = self.signs;
        let other = &mut self.other;
        let read = |table: &Table| -> Option<u64> {
            keep(rt, meanwhile, alloc, table, other, signs)
        };
        if let Ok(kept) = self.window.with(read) {
            self.kept = kept;
        }
    }
}

/// What is told in the end: how many entries the writer took, and how many the table is of that was kept until the loaders had ended.
#[derive(Drop)]
struct Seen {
    taken: u64,
    kept: Option<u64>,
}

/// What the writer took, if there was memory for all, and what the reader kept.
fn seen_of<J: Naming, R: Wait + Drop>(
    writer: BrowseWriter<J, R>,
    told: Result<(), NoMemory>,
    keeper: Keeper<'_, J>,
) -> Option<Seen> {
    told.ok()?;
    Some(Seen {
        taken: writer.taken(),
        kept: keeper.kept,
    })
}

/// Loads the files of a loading into a new journal, under a list of that name, while a reader keeps its table.
#[tactic(auto, using(crate::proofs::Empty::no_rows))]
fn load_under_name<'a, J: Naming + Send + Sync, H: Threads + Wait + Sync, R: Room>(
    rt: &H,
    alloc: Global,
    loading: Loading<'a, R>,
    signs: &Signs,
    named: Opened,
) -> (Loaded<'a, R>, Option<Seen>)
    requires begun { HasBegun R.In.left R.In.faults (R.seen loading.before.value) loading.asked (durable_view loading.durable) loading.inputs }
    requires book { named.seen.book ≡ J.book }
    requires base { J.base ≡ loading.durable.core.history }
    requires new { J.base ≡ [] }
    ensures asked { result.0.asked ≡ loading.entry.asked }
    ensures before { result.0.before.value ≡ loading.entry.before.value }
    ensures read { HasRead R.In.left R.In.faults (R.seen result.0.before.value) result.0.asked (durable_view result.0.durable) result.0.inputs result.0.results }
{
    let tables = (Table::new(alloc), Table::new(alloc));
    let Some((writer, reader, other)) = opened::<J, &H>(alloc, rt, named, tables) else {
        return (give_up(loading), None);
    };
    let keeper = Keeper {
        alloc,
        window: reader.into_window(),
        other,
        signs,
        kept: None,
    };
    let gate = Waits { signs };
    let FollowedLoad {
        loaded,
        taker,
        told,
        pager,
    } = load_followed(rt, alloc, loading, &gate, writer, keeper);
    (loaded, seen_of(taker, told, pager))
}

/// Whether a journal has no entry.
#[tactic(auto, using(crate::proofs::Empty::no_history))]
fn is_new<R: Room>(loading: &Loading<'_, R>) -> bool
    ensures { IsTrue result → loading.now.durable.core.history ≡ [] }
{
    loading.catalogue().history_len() == 0
}

/// Loads the files of a loading into a new journal, while a reader keeps its table.
fn load_keeping<'a, H: Threads + Wait + Sync, R: Room>(
    rt: &H,
    alloc: Global,
    loading: Loading<'a, R>,
    signs: &Signs,
) -> (Loaded<'a, R>, Option<Seen>)
    requires begun { HasBegun R.In.left R.In.faults (R.seen loading.before.value) loading.asked (durable_view loading.durable) loading.inputs }
    ensures waiting { (now : R) → IsWaiting (R.seen loading.entry.before.value) (R.seen now) loading.entry.asked.journal.now →
        IsWaiting (R.seen result.0.before.value) (R.seen now) result.0.asked.journal.now }
    ensures read { HasRead R.In.left R.In.faults (R.seen result.0.before.value) result.0.asked (durable_view result.0.durable) result.0.inputs result.0.results }
{
    if !is_new(&loading) {
        return (give_up(loading), None);
    }
    load_under_name::<Brand, H, R>(rt, alloc, loading, signs, Opened::new())
}

fn library_of(alloc: Global, code: &str, file: &str) -> Result<Library, NoMemory> {
    Ok(Library {
        code: Text::from_str(alloc, code)?,
        file: Text::from_str(alloc, file)?,
    })
}

/// Whether the file of a library can be loaded into a journal of that name.
fn can_be_loaded(library: &Library, journal: &str) -> bool
    ensures code { IsTrue result → IsTrue (is_code library.now.code) }
    ensures apart { IsTrue result → library.now.file ≢ journal.now }
    ensures named { IsTrue result → journal.now ≢ [] }
{
    can_be_code(library.code.as_bytes()) && library.file.as_str() != journal && !journal.is_empty()
}

fn only(alloc: Global, library: Library) -> Result<Libraries, NoMemory>
    ensures { IfOk result (λ libraries. libraries ≡ library ∷ []) }
{
    let mut libraries = Vec::new(alloc);
    libraries.push(library)?;
    Ok(Libraries::from_vec(libraries))
}

/// A load of the file of a library into a journal; none where that can't be asked for.
#[tactic(auto, using(crate::proofs::Proper::proper))]
fn load_of<'a>(alloc: Global, journal: &'a str, library: Library) -> Option<LoadRequest<'a>>
    ensures { IfSome result IsProper }
{
    if !can_be_loaded(&library, journal) {
        return None;
    }
    let libraries = only(alloc, library).ok()?;
    Some(LoadRequest {
        journal,
        libraries,
        outputs: None,
    })
}

/// Begins a load.
fn begun<'a, R: Room>(
    alloc: Global,
    asked: LoadRequest<'a>,
    room: &mut R,
    console: &mut R::Out,
) -> Option<Loading<'a, R>>
    requires free { (name : List ℕ) → (R.seen room.old).open_as name ≡ None }
    requires proper { IsProper asked }
    ensures begun { IfSome result (λ l. HasBegun R.In.left R.In.faults (R.seen l.before.value) l.asked (durable_view l.durable) l.inputs) }
    ensures waiting { IfSome result (λ l. IsWaiting (R.seen l.before.value) (R.seen room.new) l.asked.journal.now) }
{
    begin(alloc, asked, room, console).ok()
}

/// Carries out a load while a reader keeps its table: how it ends, and what was seen.
fn carried_out<H: Threads + Wait + Sync, R: Room>(
    rt: &H,
    alloc: Global,
    asked: LoadRequest<'_>,
    room: &mut R,
    console: &mut R::Out,
) -> Option<(End, Seen)>
    requires free { (name : List ℕ) → (R.seen room.old).open_as name ≡ None }
    requires proper { IsProper asked }
{
    let signs = Signs {
        kept: AtomicU64::new(0),
        shown: AtomicU64::new(0),
    };
    let loading = begun(alloc, asked, room, console)?;
    let (loaded, seen) = load_keeping(rt, alloc, loading, &signs);
    let end = end(alloc, loaded, room, console);
    Some((end, seen?))
}

/// A room with a file of these bytes.
#[tactic(auto, using(crate::proofs::Closed::still_closed))]
fn with_file(alloc: Global, name: &str, bytes: &[u8]) -> Result<MemRoom, Fail>
    ensures { IfOk result (λ room. (name : List ℕ) → (room_view room).open_as name ≡ None) }
{
    let mut room = MemRoom::new(alloc);
    room.put(name, Vec::from_slice(alloc, bytes)?)?;
    Ok(room)
}

/// No loader waits for the reader: all three entries are loaded while it keeps a table of none, and the writer takes them in the end.
#[test]
fn a_reader_keeps_its_table_until_the_loaders_have_ended(rt: HostRuntime) -> Result<(), Fail> {
    let alloc = rt.alloc();
    let library = library_of(alloc, "ULIB", "f")?;
    let asked = load_of(alloc, "j", library).ok_or("a load that can be asked for")?;
    let mut room = with_file(alloc, "f", RECORDS)?;
    let mut console = MemSink::new(alloc, Vec::new(alloc));
    let told = carried_out(&rt, alloc, asked, &mut room, &mut console);
    let (end, seen) = told.ok_or("a load")?;
    assert!(rt; end == End::Done);
    assert!(rt; seen.taken == 3 && seen.kept == Some(0));
    Ok(())
}
