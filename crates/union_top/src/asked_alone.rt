//! The commands that start no threads.
ghost use Rattle.std.specs.Prelude.{◌≡◌, ℕ, List, None};
ghost use Rattle.command_words.specs.Asked.{alone_asked, AsksFor};
ghost use Rattle.command_words.specs.declared.asked.Request.{Request};
ghost use Rattle.console_lines.specs.Ends.{outcome};
ghost use Rattle.union_top.specs.Commands.{CarriesOut};

use crate::journals::look_at_journal;
use crate::parts::over_parts;
use crate::points::over_point;
use crate::readings::look_unheld;
use command_words::laws::{files_are_named, names_are_apart, numbers_are_bounded};
use command_words::{AloneRequest, Words};
use console_lines::End;
use journal_verification::{verify, verify_digest};
use migrate_command::migrate_journal;
use outside::Room;
use plain_commands::{give_back, make, pass};
use program_help::{help, version};
use salvage_command::salvage_journal;
use std::alloc::Global;

/// Carries out the command that some words ask for, which starts no threads. It waits for no thread and no lock.
pub fn carry_out<R: Room>(
    alloc: Global,
    words: &Words,
    asked: AloneRequest<'_>,
    room: &mut R,
    console: &mut R::Out,
) -> End
    requires asks { AsksFor words.now (Request.Alone asked) }
    requires closed { (name : List ℕ) → (R.seen room.old).open_as name ≡ None }
    ensures { CarriesOut words.now (alone_asked asked.entry)
        (outcome R.seen R.Out.written R.Out.faults room.old room.new console.old console.new result) }
{
    files_are_named(words);
    names_are_apart(words);
    numbers_are_bounded(words);
    match asked {
        AloneRequest::Pass { library, out } => pass(alloc, room, console, &library, out),
        AloneRequest::Held(look) => look_at_journal(alloc, words, look, room, console),
        AloneRequest::Make { seed, count, out } => make(alloc, room, console, seed, count, out),
        AloneRequest::Verify { journal } => verify(alloc, room, console, journal),
        AloneRequest::VerifyDigest {
            journal,
            count,
            digest,
        } => verify_digest(alloc, room, console, journal, count, digest),
        AloneRequest::Migrate { old, new } => migrate_journal(alloc, room, console, old, new),
        AloneRequest::Salvage { journal, new } => {
            salvage_journal(alloc, room, console, journal, new)
        }
        AloneRequest::Point(asked) => over_point(alloc, words, asked, room, console),
        AloneRequest::Unheld(look) => look_unheld(alloc, words, look, room, console),
        AloneRequest::Refused { library, out } => give_back(alloc, room, console, &library, out),
        AloneRequest::Parts(asked) => over_parts(alloc, words, asked, room, console),
        AloneRequest::Help { topic } => help(console, topic),
        AloneRequest::Version => version(console),
    }
}
