//! The room of a script, and what each step does to it.
ghost use Rattle.std.specs.Prelude.{◌≡◌, ℕ, List, None, IfOk};
ghost use Rattle.outside_mem.specs.Room.{room_view};

use crate::damage::damage;
use crate::failing::fail_each;
use crate::room::{empty_room, take_limits, with_fault, with_file, with_shut};
use crate::shown::{last_page, print_all, print_number, shown};
use crate::step::Step;
use crate::turns::{Doorkeeper, Turns};
use command_words::{Words, request};
use marc_types::Text;
use outside_mem::{MemRoom, MemSink};
use std::alloc::{AllocError, Global};
use std::sync::Wait;
use std::thread::Threads;
use std::{fs, io};
use union_top::{Begun, begin, end, end_browsing, load, load_browsing};

/// The name of what is exported of an image.
const EXPORT: &str = "image.out";

/// How many choices of a crash there are: what isn't synced is as before, as written, or spoilt.
const CHOICES: u8 = 3;

/// A room in which no name is open, and how loaders take turns.
#[derive(Drop)]
pub struct Desk {
    room: MemRoom,
    turns: Turns,
    ghost closed: { (name : List ℕ) → (room_view room).open_as name ≡ None },
}

/// What was to be done wanted memory, or the file isn't there.
pub fn failed() -> io::Error {
    io::Error::from(AllocError)
}

/// The bytes of some of the script's files, one after another.
fn gathered(rt: &HostRuntime, names: &str) -> io::Result<Vec<u8>> {
    let mut bytes = Vec::new(rt.alloc());
    for name in names.split(' ') {
        bytes.extend_from_slice(&fs::read(rt, name)?)?;
    }
    Ok(bytes)
}

/// The words of a line.
pub fn words_of(alloc: Global, line: &str) -> io::Result<Words> {
    let mut words = Vec::new(alloc);
    for word in line.split(' ') {
        match Text::from_str(alloc, word) {
            Ok(word) => words.push(word)?,
            Err(_) => return Err(failed()),
        }
    }
    Ok(Words::from_vec(words))
}

/// The room with that file alone.
fn kept(alloc: Global, room: &MemRoom, name: &str) -> io::Result<MemRoom>
    ensures { IfOk result (λ room. (name : List ℕ) → (room_view room).open_as name ≡ None) }
{
    let Some(bytes) = room.file(name) else {
        return Err(failed());
    };
    let bytes = Vec::from_slice(alloc, bytes)?;
    with_file(empty_room(alloc), name, bytes).map_err(|_| failed())
}

/// The room with an image of a log alone.
fn crashed(
    alloc: Global,
    room: &MemRoom,
    name: &str,
    moment: u64,
    choice: u8,
) -> io::Result<MemRoom>
    ensures { IfOk result (λ room. (name : List ℕ) → (room_view room).open_as name ≡ None) }
{
    let Some(log) = room.log_of(name) else {
        return Err(failed());
    };
    if moment >= log.moments() {
        return Err(failed());
    }
    let Ok(image) = log.crash(alloc, moment, choice) else {
        return Err(failed());
    };
    with_file(empty_room(alloc), name, image).map_err(|_| failed())
}

/// Carries out the command of some words over a room, by the calls that the program makes, and answers the status.
pub fn answer<H: Threads + Wait + Sync>(
    threads: &H,
    alloc: Global,
    words: &Words,
    room: &mut MemRoom,
    console: &mut MemSink,
    gate: &Doorkeeper,
) -> u8
    requires { (name : List ℕ) → (room_view room.old).open_as name ≡ None }
    ensures { (name : List ℕ) → (room_view room.new).open_as name ≡ None }
{
    take_limits(room, words);
    match begin(alloc, words, request(alloc, words), room, console) {
        Begun::Ended(status) => status,
        Begun::Loading(loading) => {
            let loaded = load(threads, alloc, loading, gate);
            end(alloc, loaded, room, console)
        }
        Begun::Browsing(browsing) => {
            let browsed = load_browsing(threads, alloc, browsing, gate);
            end_browsing(alloc, browsed, room, console)
        }
    }
}

/// The status of the command of some words, and what the console is told.
pub fn ran<H: Threads + Wait + Sync>(
    threads: &H,
    alloc: Global,
    words: &Words,
    room: &mut MemRoom,
    turns: Turns,
) -> (u8, Vec<u8>)
    requires { (name : List ℕ) → (room_view room.old).open_as name ≡ None }
    ensures { (name : List ℕ) → (room_view room.new).open_as name ≡ None }
{
    let mut console = MemSink::new(alloc, Vec::new(alloc));
    let gate = Doorkeeper::new(turns);
    let status = answer(threads, alloc, words, room, &mut console, &gate);
    (status, console.into_bytes())
}

/// Prints the words of a command, what the console was told and the status.
fn tell(rt: &HostRuntime, line: &str, status: u8, told: &[u8]) -> io::Result<()> {
    let told = shown(rt.alloc(), told)?;
    print_all(rt, &["$ ", line, "\n", told.as_str()])?;
    print_number(rt, "status ", u64::from(status), "\n")
}

/// Carries out the command of some words, and prints what comes of it.
fn carried_out<H: Threads + Wait + Sync>(
    rt: &HostRuntime,
    threads: &H,
    room: MemRoom,
    turns: Turns,
    line: &str,
) -> io::Result<MemRoom>
    requires { (name : List ℕ) → (room_view room).open_as name ≡ None }
    ensures { IfOk result (λ room. (name : List ℕ) → (room_view room).open_as name ≡ None) }
{
    let words = words_of(rt.alloc(), line)?;
    let mut room = room;
    let (status, told) = ran(threads, rt.alloc(), &words, &mut room, turns);
    tell(rt, line, status, told.as_slice())?;
    Ok(room)
}

fn show(rt: &HostRuntime, room: &MemRoom, name: &str) -> io::Result<()> {
    match room.file(name) {
        Some(bytes) => {
            let bytes = shown(rt.alloc(), bytes)?;
            print_all(rt, &[name, ": ", bytes.as_str(), "\n"])
        }
        None => print_all(rt, &[name, " isn't there\n"]),
    }
}

fn show_last_page(rt: &HostRuntime, room: &MemRoom, name: &str) -> io::Result<()> {
    match room.file(name) {
        Some(bytes) => {
            let pages = shown(rt.alloc(), bytes)?;
            let page = last_page(rt.alloc(), pages.as_str())?;
            print_all(rt, &[name, " ends with: ", page.as_str()])
        }
        None => print_all(rt, &[name, " isn't there\n"]),
    }
}

fn size(rt: &HostRuntime, room: &MemRoom, name: &str) -> io::Result<()> {
    match room.file(name) {
        Some(bytes) => {
            print_all(rt, &[name])?;
            print_number(rt, " has ", bytes.len() as u64, " bytes\n")
        }
        None => print_all(rt, &[name, " isn't there\n"]),
    }
}

fn compare(rt: &HostRuntime, room: &MemRoom, one: &str, other: &str) -> io::Result<()> {
    let verdict = if room.file(one) == room.file(other) {
        " is "
    } else {
        " ISN'T "
    };
    print_all(rt, &[one, verdict, other, "\n"])
}

/// The words of a journal's export.
fn export_of(alloc: Global, journal: &str) -> io::Result<Words> {
    let mut line = String::new(alloc);
    for piece in ["export ", journal, " ", EXPORT] {
        line.push_str(piece)?;
    }
    words_of(alloc, line.as_str())
}

/// Prints the status of an export, and how many bytes are exported.
fn tell_export(rt: &HostRuntime, status: u8, bytes: Option<&[u8]>) -> io::Result<()> {
    print_number(rt, " status ", u64::from(status), "")?;
    match bytes {
        Some(bytes) => print_number(rt, ", ", bytes.len() as u64, " bytes\n"),
        None => print_all(rt, &["\n"]),
    }
}

/// Carries out an export of a journal over a room, and prints what comes of it.
pub fn exported<H: Threads + Wait + Sync>(
    rt: &HostRuntime,
    threads: &H,
    room: MemRoom,
    journal: &str,
) -> io::Result<()>
    requires { (name : List ℕ) → (room_view room).open_as name ≡ None }
{
    let words = export_of(rt.alloc(), journal)?;
    let mut room = room;
    let (status, _told) = ran(threads, rt.alloc(), &words, &mut room, Turns::Open);
    tell_export(rt, status, room.file(EXPORT))
}

/// Prints what comes of an export of each image of a closed log.
fn images<H: Threads + Wait + Sync>(
    rt: &HostRuntime,
    threads: &H,
    room: &MemRoom,
    journal: &str,
) -> io::Result<()> {
    let Some(log) = room.log_of(journal) else {
        return Err(failed());
    };
    for moment in 0..log.moments() {
        for choice in 0..CHOICES {
            let image = crashed(rt.alloc(), room, journal, moment, choice)?;
            print_number(rt, "moment ", moment, ", choice ")?;
            print_number(rt, "", u64::from(choice), ":")?;
            exported(rt, threads, image, journal)?;
        }
    }
    Ok(())
}

/// The words of an export from a checkpoint on.
fn quick_of(alloc: Global, journal: &str, point: &str) -> io::Result<Words> {
    let mut line = String::new(alloc);
    for piece in ["quick ", journal, " ", point, " ", EXPORT] {
        line.push_str(piece)?;
    }
    words_of(alloc, line.as_str())
}

/// An image of a log of checkpoints, and the journal beside it.
fn crashed_beside(
    alloc: Global,
    room: &MemRoom,
    journal: &str,
    point: &str,
    moment: u64,
    choice: u8,
) -> io::Result<MemRoom>
    ensures { IfOk result (λ room. (name : List ℕ) → (room_view room).open_as name ≡ None) }
{
    let Some(bytes) = room.file(journal) else {
        return Err(failed());
    };
    let bytes = Vec::from_slice(alloc, bytes)?;
    let image = crashed(alloc, room, point, moment, choice)?;
    with_file(image, journal, bytes).map_err(|_| failed())
}

/// Carries out an export from a checkpoint on over a room, and prints what comes of it.
fn resumed<H: Threads + Wait + Sync>(
    rt: &HostRuntime,
    threads: &H,
    room: MemRoom,
    journal: &str,
    point: &str,
) -> io::Result<()>
    requires { (name : List ℕ) → (room_view room).open_as name ≡ None }
{
    let words = quick_of(rt.alloc(), journal, point)?;
    let mut room = room;
    let (status, told) = ran(threads, rt.alloc(), &words, &mut room, Turns::Open);
    let told = shown(rt.alloc(), told.as_slice())?;
    print_all(rt, &[" ", told.as_str()])?;
    tell_export(rt, status, room.file(EXPORT))
}

/// Prints what comes of an export from each image of a closed log of checkpoints on.
fn point_images<H: Threads + Wait + Sync>(
    rt: &HostRuntime,
    threads: &H,
    room: &MemRoom,
    journal: &str,
    point: &str,
) -> io::Result<()> {
    let Some(log) = room.log_of(point) else {
        return Err(failed());
    };
    for moment in 0..log.moments() {
        for choice in 0..CHOICES {
            let image = crashed_beside(rt.alloc(), room, journal, point, moment, choice)?;
            print_number(rt, "moment ", moment, ", choice ")?;
            print_number(rt, "", u64::from(choice), ":")?;
            resumed(rt, threads, image, journal, point)?;
        }
    }
    Ok(())
}

/// Prints what a step asks to see.
fn look(rt: &HostRuntime, room: &MemRoom, step: Step<'_>, line: &str) -> io::Result<()> {
    match step {
        Step::Title => print_all(rt, &[line, "\n"]),
        Step::Show(name) => show(rt, room, name),
        Step::LastPage(name) => show_last_page(rt, room, name),
        Step::Size(name) => size(rt, room, name),
        Step::Same(one, other) => compare(rt, room, one, other),
        Step::Unknown => print_all(rt, &["NO STEP: ", line, "\n"]),
        _ => Ok(()),
    }
}

/// The room behind a step.
fn room_behind<H: Threads + Wait + Sync>(
    rt: &HostRuntime,
    threads: &H,
    room: MemRoom,
    turns: Turns,
    step: Step<'_>,
) -> io::Result<MemRoom>
    requires { (name : List ℕ) → (room_view room).open_as name ≡ None }
    ensures { IfOk result (λ room. (name : List ℕ) → (room_view room).open_as name ≡ None) }
{
    let alloc = rt.alloc();
    match step {
        Step::Title => Ok(empty_room(alloc)),
        Step::File(name, sources) => {
            let bytes = gathered(rt, sources)?;
            with_file(room, name, bytes).map_err(|_| failed())
        }
        Step::Fail(name, call) => with_fault(room, name, call).map_err(|_| failed()),
        Step::Shut(name) => with_shut(room, name).map_err(|_| failed()),
        Step::Keep(name) => kept(alloc, &room, name),
        Step::Crash(name, moment, choice) => crashed(alloc, &room, name, moment, choice),
        Step::Run(words) => carried_out(rt, threads, room, turns, words),
        _ => Ok(room),
    }
}

impl Desk {
    /// A desk with an empty room, whose loaders take turns as they come.
    pub fn new(alloc: Global) -> Desk {
        Desk {
            room: empty_room(alloc),
            turns: Turns::Open,
        }
    }

    /// Takes the step of a line.
    pub fn take<H: Threads + Wait + Sync>(
        self,
        rt: &HostRuntime,
        threads: &H,
        line: &str,
    ) -> io::Result<Desk> {
        let step = Step::of(line);
        let Desk { room, turns } = self;
        look(rt, &room, step, line)?;
        if let Step::Images(journal) = step {
            images(rt, threads, &room, journal)?;
        }
        if let Step::Points(journal, point) = step {
            point_images(rt, threads, &room, journal, point)?;
        }
        if let Step::Damage(journal, point, due) = step {
            damage(rt, threads, &room, journal, point, due)?;
        }
        if let Step::FailEach(name, words) = step {
            fail_each(rt, threads, &room, name, words)?;
        }
        let turns = match step {
            Step::Title => Turns::Open,
            Step::Turns(turns) => turns,
            _ => turns,
        };
        let room = room_behind(rt, threads, room, turns, step)?;
        Ok(Desk { room, turns })
    }
}
