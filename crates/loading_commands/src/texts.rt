//! The console's lines of a command's files.
ghost use Rattle.std.specs.Prelude.{◌≡◌, length, nat_lt, IfOk, string_bytes};
ghost use Rattle.loading_commands.specs.Texts.{totals_in, files_text, has_refused};

use command_words::Library;
use console_lines::{Totals, refused_lines, totals_line};
use loader_workers::FileResult;
use marc_types::NoMemory;
use std::alloc::Global;

fn totals_in(file: &FileResult) -> Totals
    ensures { result ≡ totals_in file.now }
{
    Totals {
        accepted: file.accepted,
        refused: file.refused.len() as u64,
        sums: file.sums,
    }
}

/// What the console is told of files: their refused items, file by file, and then what is counted of each.
pub fn files_text(
    alloc: Global,
    libraries: &[Library],
    results: &[FileResult],
) -> Result<String, NoMemory>
    requires { length libraries.now ≡ length results.now }
    ensures { IfOk result (λ text. string_bytes text ≡ files_text libraries.now results.now) }
{
    let mut text = String::new(alloc);
    let mut totals = String::new(alloc);
    for (library, loaded) in libraries.iter().zip(results) {
        let file = library.file.as_str();
        let lines = refused_lines(alloc, file, loaded.refused.as_slice())?;
        text.push_str(lines.as_str())?;
        let line = totals_line(alloc, file, &totals_in(loaded))?;
        totals.push_str(line.as_str())?;
    }
    text.push_str(totals.as_str())?;
    Ok(text)
}

fn has_refused_item(file: &FileResult) -> bool
    ensures { result ≡ nat_lt 0 (length file.now.refused) }
{
    !file.refused.is_empty()
}

/// Whether an item of some file is refused.
pub fn has_refused(results: &[FileResult]) -> bool
    ensures { result ≡ has_refused results.now }
{
    results.iter().any(|file| has_refused_item(file))
}
