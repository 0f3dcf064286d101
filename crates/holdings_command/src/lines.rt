//! What the console is told of a file of holdings.
ghost use Rattle.std.specs.Prelude.{◌≡◌, ℕ, IfOk, string_bytes};
ghost use Rattle.holdings.specs.declared.refusal.HoldingRefusal.TheVariants.{NoTarget};
ghost use Rattle.holdings_command.specs.Lines.{refused_holding_line, refused_holding_lines, holdings_line, counted_results};

use console_lines::refused_lines;
use file_entries::RefusedItem;
use file_holdings::RefusedHolding;
use holdings::HoldingRefusal;
use holdings_export::ShelfCounts;
use marc_types::{NoMemory, Refusal};
use std::alloc::Global;

/// The line of a piece that is refused for a reason that there is against other records too.
fn of_record(
    alloc: Global,
    file: &str,
    item: &RefusedHolding,
    refusal: Refusal,
) -> Result<String, NoMemory>
    requires { item.now.refusal ≡ HoldingRefusal.OfRecord refusal }
    ensures { IfOk result (λ text. string_bytes text ≡ refused_holding_line file.now item.now) }
{
    let same = RefusedItem {
        ordinal: item.ordinal,
        offset: item.offset,
        refusal,
    };
    refused_lines(alloc, file, &[same])
}

/// The line of a piece that names no record.
fn no_target(alloc: Global, file: &str, item: &RefusedHolding) -> Result<String, NoMemory>
    requires { item.now.refusal ≡ NoTarget }
    ensures { IfOk result (λ text. string_bytes text ≡ refused_holding_line file.now item.now) }
{
    let ordinal = item.ordinal;
    let offset = item.offset;
    let number = item.refusal.number();
    let reason = "no target";
    Ok(format!(in alloc; "{file} {ordinal} {offset} {number} {reason}\n")?)
}

/// The line of a piece that makes no holding.
fn line_of_refused(alloc: Global, file: &str, item: &RefusedHolding) -> Result<String, NoMemory>
    ensures { IfOk result (λ text. string_bytes text ≡ refused_holding_line file.now item.now) }
{
    match item.refusal {
        HoldingRefusal::OfRecord(refusal) => of_record(alloc, file, item, refusal),
        HoldingRefusal::NoTarget => no_target(alloc, file, item),
    }
}

/// The lines of a file's refused pieces.
fn refused_holdings(
    alloc: Global,
    file: &str,
    refused: &[RefusedHolding],
) -> Result<String, NoMemory>
    ensures { IfOk result (λ text. string_bytes text ≡ refused_holding_lines file.now refused.now) }
{
    let mut text = String::new(alloc);
    for item in refused {
        let line = line_of_refused(alloc, file, item)?;
        text.push_str(line.as_str())?;
    }
    Ok(text)
}

/// The line of what was counted of a file.
#[tactic(auto, unfolding(crate::specs::Lines::holdings_line))]
fn counts_text(
    alloc: Global,
    file: &str,
    accepted: u64,
    refused: u64,
    counts: ShelfCounts,
) -> Result<String, NoMemory>
    ensures { IfOk result (λ text. string_bytes text ≡ holdings_line file.now accepted refused counts.attached counts.waiting) }
{
    let ShelfCounts { attached, waiting } = counts;
    Ok(format!(in alloc;
        "{file}: accepted {accepted}, refused {refused}, attached {attached}, waiting {waiting}\n"
    )?)
}

/// What the console is told of a file: its refused pieces, and what was counted of it.
pub fn holdings_text(
    alloc: Global,
    file: &str,
    accepted: u64,
    refused: &[RefusedHolding],
    counts: ShelfCounts,
) -> Result<String, NoMemory>
    ensures { IfOk result (λ text. string_bytes text ≡ counted_results file.now accepted refused.now counts.attached counts.waiting) }
{
    let mut text = refused_holdings(alloc, file, refused)?;
    let line = counts_text(alloc, file, accepted, refused.len() as u64, counts)?;
    text.push_str(line.as_str())?;
    Ok(text)
}
