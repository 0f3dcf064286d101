ghost use Rattle.std.specs.Prelude.{◌≡◌, ◌++◌, IfOk, string_bytes};
ghost use Rattle.console_lines.specs.Lines.{refused_lines, sums_text, totals_line, made_line};

use crate::lines::refused_line;
use crate::totals::Totals;
use file_entries::RefusedItem;
use marc_types::{NoMemory, Sums};
use std::alloc::Global;

/// The sums over the receipts, as they end a line.
#[tactic(auto, unfolding(crate::specs::Lines::sums_text))]
fn sums_text(alloc: Global, sums: &Sums) -> Result<String, NoMemory>
    ensures { IfOk result (λ text. string_bytes text ≡ sums_text sums.now) }
{
    let linked = sums.linked;
    let ambiguous = sums.ambiguous;
    let unlinked = sums.unlinked;
    let changed = sums.changed;
    Ok(format!(in alloc;
        ", linked {linked}, ambiguous {ambiguous}, unlinked {unlinked}, changed {changed}\n"
    )?)
}

/// The line of what was counted of a file.
#[tactic(auto, unfolding(crate::specs::Lines::totals_line))]
pub fn totals_line(alloc: Global, file: &str, totals: &Totals) -> Result<String, NoMemory>
    ensures { IfOk result (λ text. string_bytes text ≡ totals_line file.now totals.now) }
{
    let accepted = totals.accepted;
    let refused = totals.refused;
    let sums = sums_text(alloc, &totals.sums)?;
    Ok(format!(in alloc; "{file}: accepted {accepted}, refused {refused}{sums}")?)
}

/// The line of a workload that was made, with so many records.
#[tactic(auto, unfolding(crate::specs::Lines::made_line))]
pub fn made_line(alloc: Global, count: u64, sums: &Sums) -> Result<String, NoMemory>
    ensures { IfOk result (λ text. string_bytes text ≡ made_line count sums.now) }
{
    let text = sums_text(alloc, sums)?;
    Ok(format!(in alloc; "made {count}{text}")?)
}

/// The lines of a file's refused pieces.
pub fn refused_lines(alloc: Global, file: &str, refused: &[RefusedItem]) -> Result<String, NoMemory>
    ensures { IfOk result (λ text. string_bytes text ≡ refused_lines file.now refused.now) }
{
    let mut text = String::new(alloc);
    for item in refused {
        let line = refused_line(alloc, file, item)?;
        text.push_str(line.as_str())?;
    }
    Ok(text)
}

/// What the console is told of a file: its refused pieces, and what was counted of it.
pub fn results_text(
    alloc: Global,
    file: &str,
    refused: &[RefusedItem],
    totals: &Totals,
) -> Result<String, NoMemory>
    ensures { IfOk result (λ text. string_bytes text ≡ refused_lines file.now refused.now ++ totals_line file.now totals.now) }
{
    let mut text = refused_lines(alloc, file, refused)?;
    let line = totals_line(alloc, file, totals)?;
    text.push_str(line.as_str())?;
    Ok(text)
}
