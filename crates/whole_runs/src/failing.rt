//! A command over a journal that is carried out again and again, each time with another call failing.
ghost use Rattle.std.specs.Prelude.{◌≡◌, ℕ, List, None};
ghost use Rattle.outside_mem.specs.Room.{room_view};

use crate::desk::{answer, exported, failed, words_of};
use crate::room::{empty_room, with_fault, with_file};
use crate::shown::{print_all, print_number};
use crate::turns::{Doorkeeper, Turns};
use command_words::Words;
use outside_mem::{MemRoom, MemSink};
use std::alloc::Global;
use std::io;
use std::sync::Wait;
use std::thread::Threads;

/// The name by which a script speaks of the console.
const CONSOLE: &str = "console";

/// A room in which no name is open.
#[derive(Drop)]
struct Still {
    room: MemRoom,
    ghost closed: { (name : List ℕ) → (room_view room).open_as name ≡ None },
}

/// A command: its line, its words, and the room's files before it.
#[derive(Drop)]
struct Command<'a> {
    line: &'a str,
    words: Words,
    before: &'a MemRoom,
}

/// A call that is to fail: the name of what it is made on, and its number there.
#[derive(Clone, Copy)]
struct Call<'a> {
    name: &'a str,
    number: u64,
}

/// The name of a file in a word.
fn name_in(word: &str) -> &str {
    match word.split_once('=') {
        Some((_code, file)) => file,
        None => word,
    }
}

impl Still {
    fn empty(alloc: Global) -> Still {
        Still {
            room: empty_room(alloc),
        }
    }

    /// The room with the file of that name of another one too, if it is there.
    fn with_file_of(self, alloc: Global, from: &MemRoom, name: &str) -> io::Result<Still> {
        let Some(bytes) = from.file(name) else {
            return Ok(self);
        };
        let bytes = Vec::from_slice(alloc, bytes)?;
        let Still { room } = self;
        let room = with_file(room, name, bytes).map_err(|_| failed())?;
        Ok(Still { room })
    }
}

/// The files of a room that a line names.
fn copied(alloc: Global, room: &MemRoom, line: &str) -> io::Result<Still> {
    let mut copy = Still::empty(alloc);
    for word in line.split(' ') {
        copy = copy.with_file_of(alloc, room, name_in(word))?;
    }
    Ok(copy)
}

/// A copy of the command's room, in which a call is to fail unless it is one on the console.
fn room_for(alloc: Global, command: &Command<'_>, call: Option<Call<'_>>) -> io::Result<Still> {
    let Still { room } = copied(alloc, command.before, command.line)?;
    match call {
        Some(Call { name, number }) if name != CONSOLE => {
            let room = with_fault(room, name, number).map_err(|_| failed())?;
            Ok(Still { room })
        }
        _ => Ok(Still { room }),
    }
}

/// A console on which that call is to fail, if it is one on the console.
fn console_for(alloc: Global, call: Option<Call<'_>>) -> io::Result<MemSink> {
    let mut fails = Vec::new(alloc);
    if let Some(Call { name, number }) = call {
        if name == CONSOLE {
            fails.push(number)?;
        }
    }
    Ok(MemSink::new(alloc, fails))
}

/// The status of a command while a call fails, and the room behind it.
fn tried<H: Threads + Wait + Sync>(
    threads: &H,
    alloc: Global,
    command: &Command<'_>,
    call: Option<Call<'_>>,
) -> io::Result<(u8, Still)> {
    let Still { mut room } = room_for(alloc, command, call)?;
    let mut console = console_for(alloc, call)?;
    let gate = Doorkeeper::new(Turns::OneByOne);
    let status = answer(
        threads,
        alloc,
        &command.words,
        &mut room,
        &mut console,
        &gate,
    );
    Ok((status, Still { room }))
}

/// How a file is beside what it was, and what it has to be when nothing fails.
fn state_of(now: Option<&[u8]>, before: Option<&[u8]>, due: Option<&[u8]>) -> &'static str {
    match (now, due) {
        (Some(now), Some(due)) if now == due => "whole",
        (now, _) if now == before => "as it was",
        (Some(now), Some(due)) if due.starts_with(now) => "a front",
        _ => "another",
    }
}

fn tell_file(rt: &HostRuntime, name: &str, state: &str) -> io::Result<()> {
    print_all(rt, &[", ", name, " ", state])
}

/// Prints how the files of a command are that it isn't to read.
fn tell_files(
    rt: &HostRuntime,
    command: &Command<'_>,
    now: &MemRoom,
    due: &MemRoom,
) -> io::Result<()> {
    for name in command.line.split(' ').skip(1) {
        if !name.contains('=') {
            let state = state_of(now.file(name), command.before.file(name), due.file(name));
            tell_file(rt, name, state)?;
        }
    }
    Ok(())
}

/// Carries out a command while a call fails, and prints what comes of it and what the journal then has. Answers the status.
fn tell_failing<H: Threads + Wait + Sync>(
    rt: &HostRuntime,
    threads: &H,
    command: &Command<'_>,
    call: Call<'_>,
    due: &MemRoom,
) -> io::Result<u8> {
    let (status, Still { room }) = tried(threads, rt.alloc(), command, Some(call))?;
    print_all(rt, &[call.name])?;
    print_number(rt, " ", call.number, ": status ")?;
    print_number(rt, "", u64::from(status), "")?;
    tell_files(rt, command, &room, due)?;
    let journal = command.line.split(' ').nth(1).unwrap_or("");
    print_all(rt, &["; again"])?;
    exported(rt, threads, room, journal)?;
    Ok(status)
}

/// Carries out the command of a line over a room's files again and again, with the next call on a name failing each time, until the
/// command ends as if none had.
pub fn fail_each<H: Threads + Wait + Sync>(
    rt: &HostRuntime,
    threads: &H,
    before: &MemRoom,
    name: &str,
    line: &str,
) -> io::Result<()> {
    let command = Command {
        line,
        words: words_of(rt.alloc(), line)?,
        before,
    };
    let (unhindered, Still { room: due }) = tried(threads, rt.alloc(), &command, None)?;
    print_all(rt, &["$ ", line, "\n"])?;
    for number in 0..u64::MAX {
        let status = tell_failing(rt, threads, &command, Call { name, number }, &due)?;
        if status == unhindered {
            break;
        }
    }
    Ok(())
}
