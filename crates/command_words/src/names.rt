//! Words that name files and libraries, and words that are numbers.
ghost use Rattle.std.specs.Prelude.{◌≡◌, true, None, Some, map, IfSome, IfOk, MatchOption, is_some};
ghost use Rattle.std.specs.List.{list_all};
ghost use Rattle.marc_types.specs.Valid.{is_code, is_digit};
ghost use Rattle.command_words.specs.Command.{library_of, are_libraries, is_free, differ, split_at_equals, number_upto, are_two_names, are_three_names, are_four_names, are_three_alone, are_four_alone};

use crate::library::{Libraries, Library};
use marc_types::{NoMemory, Text, can_be_code};
use std::alloc::Global;

/// The most files of one command.
const MOST_FILES: usize = 64;

/// The library code and the file of a word `CODE=FILE`.
#[tactic(auto, unfolding(crate::specs::Command::library_of))]
fn split_library(word: &str) -> Option<(&str, &str)>
    ensures found { MatchOption result (library_of word.now ≡ None)
        (λ found. library_of word.now ≡ Some (record { code = found.0.now; file = found.1.now })) }
    ensures proper { IfSome result (λ found. is_code found.0.now ≡ true) }
{
    let (code, file) = word.split_once('=')?;
    if can_be_code(code.as_bytes()) && !file.is_empty() {
        Some((code, file))
    } else {
        None
    }
}

fn is_library(word: &Text) -> bool
    ensures { result ≡ is_some (library_of word.now) }
{
    split_library(word.as_str()).is_some()
}

fn all_libraries(words: &[Text]) -> bool
    ensures { result ≡ list_all (λ word. is_some (library_of word)) words.now }
{
    words.iter().all(is_library)
}

/// Whether these are 1 to 64 words `CODE=FILE`.
#[tactic(auto, unfolding(crate::specs::Command::are_libraries))]
pub(crate) fn are_libraries(words: &[Text]) -> bool
    ensures { result ≡ are_libraries words.now }
{
    !words.is_empty() && words.len() <= MOST_FILES && all_libraries(words)
}

/// What stands behind the first `=`.
fn file_of(word: &Text) -> &str
    ensures { result.now ≡ (split_at_equals word.now).file }
{
    match word.as_str().split_once('=') {
        Some((_code, file)) => file,
        None => "",
    }
}

fn is_no_file(name: &str, files: &[Text]) -> bool
    ensures { result ≡ list_all (λ word. differ name.now (split_at_equals word).file) files.now }
{
    files.iter().all(|word| name != file_of(word))
}

/// Whether the name of a log or an output isn't empty, and no file's.
#[tactic(auto, unfolding(crate::specs::Command::is_free))]
pub(crate) fn is_free(name: &str, files: &[Text]) -> bool
    ensures { result ≡ is_free files.now name.now }
{
    !name.is_empty() && is_no_file(name, files)
}

/// Whether all are decimal digits.
fn are_digits(bytes: &[u8]) -> bool
    ensures { result ≡ list_all is_digit bytes.now }
{
    bytes.iter().all(|byte| (b'0'..=b'9').contains(byte))
}

/// The number of 1 to 20 decimal digits, if it isn't above the limit.
#[tactic(auto, using(crate::proofs::Digits::parsed_digits), unfolding(crate::specs::Command::number_upto))]
pub(crate) fn number_upto(limit: u64, word: &str) -> Option<u64>
    ensures { result ≡ number_upto limit word.now }
{
    if word.len() > 20 || !are_digits(word.as_bytes()) {
        return None;
    }
    match word.parse::<u64>() {
        Ok(number) if number <= limit => Some(number),
        _ => None,
    }
}

/// The library of a word `CODE=FILE`.
pub(crate) fn library_in(alloc: Global, word: &Text) -> Result<Library, NoMemory>
    ensures { IfOk result (λ library. library ≡ split_at_equals word.now) }
{
    let (code, file) = match word.as_str().split_once('=') {
        Some(parts) => parts,
        None => (word.as_str(), ""),
    };
    let code = Text::from_str(alloc, code)?;
    let file = Text::from_str(alloc, file)?;
    Ok(Library { code, file })
}

/// The libraries of words `CODE=FILE`, in their order.
pub(crate) fn libraries_in(alloc: Global, words: &[Text]) -> Result<Libraries, NoMemory>
    ensures { IfOk result (λ libraries. libraries ≡ map split_at_equals words.now) }
{
    let mut libraries = Vec::with_capacity(alloc, words.len())?;
    for word in words {
        libraries.push(library_in(alloc, word)?)?;
    }
    Ok(Libraries::from_vec(libraries))
}

/// Whether a log and an output may have these names, where the command reads no file.
pub(crate) fn are_two_names(journal: &str, out: &str) -> bool
    ensures { result ≡ are_two_names journal.now out.now }
{
    !journal.is_empty() && !out.is_empty() && journal != out
}

/// Whether three files may have these names, where the command reads no other.
pub(crate) fn are_three_alone(journal: &str, other: &str, out: &str) -> bool
    ensures { result ≡ are_three_alone journal.now other.now out.now }
{
    are_two_names(journal, other) && !out.is_empty() && journal != out && other != out
}

/// Whether four files may have these names, where the command reads no other.
pub(crate) fn are_four_alone(journal: &str, other: &str, out: &str, report: &str) -> bool
    ensures { result ≡ are_four_alone journal.now other.now out.now report.now }
{
    are_three_alone(journal, other, out)
        && !report.is_empty()
        && journal != report
        && other != report
        && out != report
}

/// Whether a log and two outputs may have these names, where the command reads these files.
pub(crate) fn are_three_names(files: &[Text], journal: &str, out: &str, rest: &str) -> bool
    ensures { result ≡ are_three_names files.now journal.now out.now rest.now }
{
    are_libraries(files)
        && is_free(journal, files)
        && is_free(out, files)
        && is_free(rest, files)
        && journal != out
        && journal != rest
        && out != rest
}

/// Whether a log and three outputs may have these names, where the command reads these files.
pub(crate) fn are_four_names(
    files: &[Text],
    journal: &str,
    out: &str,
    report: &str,
    pages: &str,
) -> bool
    ensures { result ≡ are_four_names files.now journal.now out.now report.now pages.now }
{
    are_three_names(files, journal, out, report)
        && is_free(pages, files)
        && journal != pages
        && out != pages
        && report != pages
}
