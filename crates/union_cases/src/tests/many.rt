//! As many files as a command takes, over a sure room.
ghost use Rattle.std.specs.Prelude.{◌≡◌, ℕ, List, None, IfOk};
ghost use Rattle.command_words.specs.Command.{is_large};
ghost use Rattle.outside_sure.specs.SureRoom.{sure_room_view};

use command_words::{Words, is_large};
use marc_types::{NoMemory, Text};
use outside_real::OpenGate;
use outside_sure::{SureRoom, SureSink};
use std::alloc::Global;
use std::sync::Wait;
use std::test::Fail;
use std::thread::Threads;
use union_top::run;

const BOTH: &[u8] =
    b"00065nam a2200049 a 4500001000300000245001200003\x1eb3\x1e00\x1faZoology\x1e\x1d00065nam a2200049 a 4500001000300000245001200003\x1eb1\x1e00\x1faAlgebra\x1e\x1d";

const ORDERED: &[u8] =
    b"00065nam a2200049 a 4500001000300000245001200003\x1eb1\x1e00\x1faAlgebra\x1e\x1d00065nam a2200049 a 4500001000300000245001200003\x1eb3\x1e00\x1faZoology\x1e\x1d";

/// The most files of one command.
const MOST: u32 = 64;

/// The bytes that each drawer of the sure room has room for, and the console.
const ROOM: usize = 16384;

/// The last digit of a number.
fn digit(number: u32) -> char {
    (b'0' + (number % 10) as u8) as char
}

/// A number below 100 behind a text. (A format would take the prover some twenty seconds.)
fn push_number(text: &mut String, before: &str, number: u32) -> Result<(), NoMemory> {
    text.push_str(before)?;
    if number >= 10 {
        text.push(digit(number / 10))?;
    }
    text.push(digit(number))?;
    Ok(())
}

fn name_of(alloc: Global, index: u32) -> Result<String, NoMemory> {
    let mut name = String::new(alloc);
    push_number(&mut name, "f", index)?;
    Ok(name)
}

/// A sure room with so many files of two records each, and drawers for a log and an output.
#[tactic(auto, using(crate::proofs::Closed::sure_empty, crate::proofs::Closed::sure_given, crate::proofs::Closed::sure_drawer_made))]
fn with_files<'a>(alloc: Global, count: u32, bytes: &'a [u8]) -> Result<SureRoom<'a, ROOM>, Fail>
    ensures { IfOk result (λ room. (name : List ℕ) → (sure_room_view room).open_as name ≡ None) }
{
    let mut room = SureRoom::<ROOM>::new(alloc);
    room.make_drawer("j", None)?;
    room.make_drawer("out", None)?;
    for index in 0..count {
        let name = name_of(alloc, index)?;
        room.give(name.as_str(), bytes)?;
    }
    Ok(room)
}

fn words_of(alloc: Global, list: &[&str]) -> Result<Words, NoMemory> {
    let mut words = Vec::new(alloc);
    for word in list {
        words.push(Text::from_str(alloc, word)?)?;
    }
    Ok(Words::from_vec(words))
}

/// The word for a file of a library of its own.
fn file_word(alloc: Global, index: u32) -> Result<Text, NoMemory> {
    let mut word = String::new(alloc);
    push_number(&mut word, "L", index)?;
    push_number(&mut word, "=f", index)?;
    Ok(Text::from_string(word))
}

/// The words of a load of so many files, each of a library of its own.
fn load_of(alloc: Global, count: u32) -> Result<Words, NoMemory> {
    let mut words = Vec::new(alloc);
    words.push(Text::from_str(alloc, "load")?)?;
    words.push(Text::from_str(alloc, "j")?)?;
    for index in 0..count {
        words.push(file_word(alloc, index)?)?;
    }
    Ok(Words::from_vec(words))
}

/// What the console is told of so many files of two records each.
fn totals_of(alloc: Global, count: u32) -> Result<String, NoMemory> {
    let mut text = String::new(alloc);
    for index in 0..count {
        push_number(&mut text, "f", index)?;
        text.push_str(": accepted 2, refused 0, linked 0, ambiguous 0, unlinked 0, changed 0\n")?;
    }
    Ok(text)
}

/// Gives a room the limits that the command of some words takes, those of a large catalogue or not.
#[tactic(auto, using(crate::proofs::Closed::sure_sized))]
fn take_limits(room: &mut SureRoom<'static, ROOM>, words: &Words)
    requires { (name : List ℕ) → (sure_room_view room.old).open_as name ≡ None }
    ensures closed { (name : List ℕ) → (sure_room_view room.new).open_as name ≡ None }
    ensures large { (sure_room_view room.new).is_large ≡ is_large words.now }
{
    room.set_large(is_large(words));
}

/// Whether a command answers with that status, and the console is told that.
fn answers<H: Threads + Wait + Sync>(
    threads: &H,
    alloc: Global,
    words: &Words,
    room: &mut SureRoom<'static, ROOM>,
    status: u8,
    told: &str,
) -> Result<bool, Fail>
    requires { (name : List ℕ) → (sure_room_view room.old).open_as name ≡ None }
    ensures { (name : List ℕ) → (sure_room_view room.new).open_as name ≡ None }
{
    take_limits(room, words);
    let mut console = SureSink::<ROOM>::new(alloc)?;
    let answer = run(threads, alloc, words, room, &mut console, &OpenGate);
    Ok(answer == status && console.bytes() == told.as_bytes())
}

/// Whether 65 files are no command, and 64 are all loaded, and exported.
fn loads<H: Threads + Wait + Sync>(
    threads: &H,
    alloc: Global,
    room: &mut SureRoom<'static, ROOM>,
) -> Result<bool, Fail>
    requires { (name : List ℕ) → (sure_room_view room.old).open_as name ≡ None }
{
    let too_many = load_of(alloc, MOST + 1)?;
    let is_refused = answers(threads, alloc, &too_many, room, 2, "union_cat: usage\n")?;
    let totals = totals_of(alloc, MOST)?;
    let most = load_of(alloc, MOST)?;
    let is_loaded = answers(threads, alloc, &most, room, 0, totals.as_str())?;
    let export = words_of(alloc, &["export", "j", "out"])?;
    let is_exported = answers(threads, alloc, &export, room, 0, "")?;
    // the same history, with the limits of a large catalogue
    let large = words_of(alloc, &["large", "export", "j", "out"])?;
    let is_large = answers(threads, alloc, &large, room, 0, "")?;
    Ok(is_refused && is_loaded && is_exported && is_large)
}

fn len_of(room: &SureRoom<'static, ROOM>, name: &str) -> Option<usize> {
    let bytes = room.file(name)?;
    Some(bytes.len())
}

/// Whether a file is so many copies of a record.
fn has_copies(
    alloc: Global,
    room: &SureRoom<'static, ROOM>,
    name: &str,
    record: &[u8],
    count: u32,
) -> Result<bool, Fail> {
    let mut due = Vec::new(alloc);
    for _ in 0..count {
        due.extend_from_slice(record)?;
    }
    Ok(room.file(name) == Some(due.as_slice()))
}

/// Over a sure room no input, output or log is at fault. Each library's records have keys of their own.
#[test]
fn as_many_files_as_a_command_takes(rt: HostRuntime) -> Result<(), Fail> {
    let mut room = with_files(rt.alloc(), MOST, BOTH)?;
    assert!(rt; loads(&rt, rt.alloc(), &mut room)?);
    assert!(rt; len_of(&room, "j") == Some(11271));
    assert!(rt; has_copies(rt.alloc(), &room, "out", ORDERED, MOST)?);
    Ok(())
}
