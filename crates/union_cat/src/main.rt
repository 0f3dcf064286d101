//! The program `union_cat`: carries out the command of its words over the files of the system.
#![tactic(auto)]

mod details;
mod heard;
mod intent;
mod loaded;
mod refused;

use crate::heard::tell_heard;
use crate::intent::intent_of;
use crate::loaded::tell_loaded;
use command_words::{Request, Unasked, Words, is_large, request};
use marc_types::Text;
use outside_real::{FileRoom, FileSink, Heard, LineNotes, OpenGate, Target};
use program_help::slip_in;
use std::alloc::Global;
use std::io::{ErrorKind, IsTerminal};
use std::process::ExitCode;
use std::sync::Wait;
use std::thread::Threads;
use std::{env, io, process};
use union_top::{Begun, begin, end, end_browsing, load, load_browsing};

/// The exit status where there is no memory for the words of the command line.
const NO_MEMORY: u8 = 8;

/// The exit status where pieces are refused, and all else was taken.
const REFUSED: u8 = 1;

/// The exit status where the words are no command.
const USAGE: u8 = 2;

/// The exit status where an output or the console couldn't be written.
const UNWRITTEN: u8 = 4;

/// The exit status where there is more than a catalogue takes.
const FULL: u8 = 7;

fn main(rt: HostRuntime) -> ExitCode {
    match command(&rt, &rt) {
        Ok(status) => ExitCode::from(status),
        Err(_) => ExitCode::from(NO_MEMORY),
    }
}

/// The words of the command line. Where one is refused, as one that isn't UTF-8, there are none.
fn words_of(rt: &HostRuntime) -> io::Result<Words> {
    let mut words = Vec::new(rt.alloc());
    match env::args(rt) {
        Ok(args) => {
            for word in args.skip(1) {
                words.push(Text::from_string(word))?;
            }
        }
        Err(error) => {
            if error.kind() == ErrorKind::OutOfMemory {
                return Err(error);
            }
            let _told = eprintln!(rt; "union_cat: a word isn't UTF-8");
        }
    }
    Ok(Words::from_vec(words))
}

/// Whether a command writes outputs behind what it loads.
fn is_run(asked: &Result<Request<'_>, Unasked>) -> bool {
    match asked {
        Ok(Request::Load(wanted)) => wanted.outputs.is_some(),
        Ok(Request::Browse(_)) => true,
        _ => false,
    }
}

/// Tells on standard error what the console's bytes don't: which word is wrong, that what `run` loaded is there, and that `large` takes
/// more. A line that can't be written is passed over.
fn tell_more(rt: &HostRuntime, words: &Words, writes_behind: bool, status: u8) {
    if status == USAGE {
        if let Ok(slip) = slip_in(rt.alloc(), words.as_slice()) {
            let _told = eprintln!(rt; "union_cat: {slip}");
        }
    }
    if status == UNWRITTEN && writes_behind {
        let _told = eprintln!(rt; "union_cat: the records are in the journal");
    }
    if status == FULL && !is_large(words) {
        let _told = eprintln!(rt; "union_cat: a larger catalogue wants `large` before the command");
    }
}

/// Carries out the command of the words. `threads` starts the loaders of a command that has any; no other waits for anybody.
fn command<H: Threads + Wait + Sync>(rt: &HostRuntime, threads: &H) -> io::Result<u8> {
    let alloc = rt.alloc();
    let words = words_of(rt)?;
    let (files, told, notes) = (rt.clone()?, rt.clone()?, rt.clone()?);
    let mut room = FileRoom::new(files, alloc, process::id(rt.process()), is_large(&words));
    let asked = request(alloc, &words);
    let writes_behind = is_run(&asked);
    room.intend(intent_of(alloc, &asked, rt.stderr().is_terminal())?);
    let heard = room.judged().map(|_| Heard::new(alloc));
    let mut console = FileSink::direct(alloc, Target::Console(told, heard));
    let mut notes = LineNotes::new(notes, alloc);
    let status = match begin(alloc, &words, asked, &mut room, &mut console) {
        Begun::Ended(status) => {
            if status == REFUSED {
                tell_heard(alloc, &room, &console, &mut notes);
            }
            status
        }
        Begun::Loading(loading) => {
            let loaded = load(threads, alloc, loading, &OpenGate);
            tell_loaded(rt, &loaded, &room, &mut notes);
            end(alloc, loaded, &mut room, &mut console)
        }
        Begun::Browsing(browsing) => {
            let browsed = load_browsing(threads, alloc, browsing, &OpenGate);
            tell_loaded(rt, browsed.loaded(), &room, &mut notes);
            end_browsing(alloc, browsed, &mut room, &mut console)
        }
    };
    tell_more(rt, &words, writes_behind, status);
    Ok(status)
}
