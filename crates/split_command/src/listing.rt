//! What PREFIX.parts says.
ghost use Rattle.std.specs.Prelude.{◌≡◌, IfOk, string_bytes};
ghost use Rattle.split_command.specs.Console.{count_line, file_line, file_lines, bound_line, bound_lines, parts_text};

use command_words::Library;
use marc_types::{Key, NoMemory};
use std::alloc::Global;

/// The line of how many parts there are.
#[tactic(auto, unfolding(crate::specs::Console::count_line))]
fn count_line(alloc: Global, parts: u64) -> Result<String, NoMemory>
    ensures { IfOk result (λ text. string_bytes text ≡ count_line parts) }
{
    Ok(format!(in alloc; "parts {parts}\n")?)
}

/// The line of a file.
#[tactic(auto, unfolding(crate::specs::Console::file_line))]
fn file_line(alloc: Global, number: u64, library: &Library) -> Result<String, NoMemory>
    ensures { IfOk result (λ text. string_bytes text ≡ file_line number library.now) }
{
    let code = library.code.as_str();
    let file = library.file.as_str();
    Ok(format!(in alloc; "file {number} {code}={file}\n")?)
}

/// The lines of all files.
#[tactic(auto, using(crate::proofs::Lines::file_lines_more))]
fn file_lines(alloc: Global, libraries: &[Library]) -> Result<String, NoMemory>
    ensures { IfOk result (λ text. string_bytes text ≡ file_lines 0 libraries.now) }
{
    let mut text = String::new(alloc);
    for index in 0..libraries.len() {
        let line = file_line(alloc, index as u64, &libraries[index])?;
        text.push_str(line.as_str())?;
    }
    Ok(text)
}

/// The line of a bound.
#[tactic(auto, unfolding(crate::specs::Console::bound_line, heading_fields::specs::Numbers::key_text))]
fn bound_line(alloc: Global, part: u64, bound: &Key) -> Result<String, NoMemory>
    ensures { IfOk result (λ text. string_bytes text ≡ bound_line part bound.now) }
{
    let code = bound.code.as_str();
    let number = bound.number.as_str();
    Ok(format!(in alloc; "from {part} ({code}){number}\n")?)
}

/// The lines of all bounds.
#[tactic(auto, using(crate::proofs::Lines::bound_lines_more))]
fn bound_lines(alloc: Global, bounds: &[Key]) -> Result<String, NoMemory>
    ensures { IfOk result (λ text. string_bytes text ≡ bound_lines 1 bounds.now) }
{
    let mut text = String::new(alloc);
    for index in 0..bounds.len() {
        let line = bound_line(alloc, index as u64 + 1, &bounds[index])?;
        text.push_str(line.as_str())?;
    }
    Ok(text)
}

/// What PREFIX.parts says: how many parts there are, the files, and the bounds.
pub fn parts_text(
    alloc: Global,
    parts: u64,
    libraries: &[Library],
    bounds: &[Key],
) -> Result<String, NoMemory>
    ensures { IfOk result (λ text. string_bytes text ≡ parts_text parts libraries.now bounds.now) }
{
    let mut text = count_line(alloc, parts)?;
    let files = file_lines(alloc, libraries)?;
    text.push_str(files.as_str())?;
    let from = bound_lines(alloc, bounds)?;
    text.push_str(from.as_str())?;
    Ok(text)
}
