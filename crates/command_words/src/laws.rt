//! Laws of the words: each is the contract of a function that does nothing.
ghost use Rattle.std.specs.Prelude.{◌≡◌, Some, IsTrue, All, length};
ghost use Rattle.marc_types.specs.Valid.{is_code};
ghost use Rattle.outside.specs.Room.{IsNoneOf};
ghost use Rattle.command_words.specs.Command.{Command, command_of, libraries_of, file_count, names_of, AreNames, IsBounded};

use crate::words::Words;

/// A command has a library for each of its files, and their codes obey the rule of codes.
#[tactic(auto, using(crate::proofs::Commands::libraries_are_counted, crate::proofs::Commands::codes_are_proper))]
pub fn files_are_named(words: &Words)
    ensures count { (command : Command) → command_of words.now ≡ Some command → length (libraries_of words.now) ≡ file_count command }
    ensures codes { All (λ library. IsTrue (is_code library.code)) (libraries_of words.now) }
{}

/// The names of a command's log and outputs aren't empty, and differ from one another and from each file.
#[tactic(auto, using(crate::proofs::Commands::names_are_apart))]
pub fn names_are_apart(words: &Words)
    ensures names { (command : Command) → command_of words.now ≡ Some command → AreNames (names_of command) }
    ensures files { (command : Command) → command_of words.now ≡ Some command →
        All (λ library. IsNoneOf library.file (names_of command)) (libraries_of words.now) }
{}

/// A command that reads files into a journal or into parts names 1 to 64, and a workload has at most 1,048,576 records. There are 2 to 1,024
/// parts, and at least one report or export is named; no export is OUT.
#[tactic(auto, using(crate::proofs::Commands::is_bounded))]
pub fn numbers_are_bounded(words: &Words)
    ensures { (command : Command) → command_of words.now ≡ Some command → IsBounded command }
{}
