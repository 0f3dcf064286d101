//! What the console is told of a journal that was salvaged.
ghost use Rattle.std.specs.Prelude.{◌≡◌, ◌++◌, string_bytes, IfOk};
ghost use Rattle.std.specs.List.{flat_map};
ghost use Rattle.salvage_command.specs.Told.{reason_words, damage_line, left_line, count_line};

use marc_types::NoMemory;
use sound_frames::{Damage, Reason};
use std::alloc::Global;

/// The words of a damage.
fn reason_words(reason: Reason) -> &'static str
    ensures { result.now ≡ reason_words reason }
{
    match reason {
        Reason::WrongHeader => "wrong header",
        Reason::ClosedGate => "closed gate",
        Reason::Torn => "torn behind it",
        Reason::Lost => "more behind it than a crash leaves",
        Reason::NoFrame => "no whole frame",
        Reason::NotValid => "payload not valid",
    }
}

/// The line of a damage.
#[tactic(auto, unfolding(crate::specs::Told::damage_line))]
fn damage_line(alloc: Global, damage: &Damage) -> Result<String, NoMemory>
    ensures { IfOk result (λ text. string_bytes text ≡ damage_line damage.now) }
{
    let place = damage.place;
    let words = reason_words(damage.reason);
    Ok(format!(in alloc; "damage at {place}: {words}\n")?)
}

/// The lines of damages.
fn damage_lines(alloc: Global, damages: &[Damage]) -> Result<String, NoMemory>
    ensures { IfOk result (λ text. string_bytes text ≡ flat_map damage_line damages.now) }
{
    let mut text = String::new(alloc);
    for damage in damages {
        let line = damage_line(alloc, damage)?;
        text.push_str(line.as_str())?;
    }
    Ok(text)
}

/// The line of so many bytes that are left out behind a place.
#[tactic(auto, using(crate::proofs::Texts::left_none))]
fn left_line(alloc: Global, left: u64, end: u64) -> Result<String, NoMemory>
    ensures { IfOk result (λ text. string_bytes text ≡ left_line left end) }
{
    if left == 0 {
        return Ok(String::new(alloc));
    }
    Ok(format!(in alloc; "left out {left} bytes behind byte {end}\n")?)
}

/// The line of so many entries.
fn count_line(alloc: Global, count: u64) -> Result<String, NoMemory>
    ensures { IfOk result (λ text. string_bytes text ≡ count_line count) }
{
    Ok(format!(in alloc; "salvaged {count} entries\n")?)
}

/// What is told: how many entries, each damage, and how many bytes are left out behind a place.
pub(crate) fn salvaged_text(
    alloc: Global,
    count: u64,
    damages: &[Damage],
    left: u64,
    end: u64,
) -> Result<String, NoMemory>
    ensures { IfOk result (λ text. string_bytes text ≡ count_line count ++ flat_map damage_line damages.now ++ left_line left end) }
{
    let mut text = count_line(alloc, count)?;
    let lines = damage_lines(alloc, damages)?;
    text.push_str(lines.as_str())?;
    let last = left_line(alloc, left, end)?;
    text.push_str(last.as_str())?;
    Ok(text)
}
