ghost use Rattle.std.specs.Prelude.{◌≡◌, IfOk, string_bytes};
ghost use Rattle.console_lines.specs.Lines.{set_name, reason_of, refused_line};

use file_entries::RefusedItem;
use marc_types::{NoMemory, Refusal, Set};
use std::alloc::Global;

fn name_of(set: Set) -> &'static str
    ensures { result.now ≡ set_name set }
{
    match set {
        Set::Eacc => "EACC",
        Set::BasicHebrew => "Basic Hebrew",
        Set::BasicArabic => "Basic Arabic",
        Set::ExtendedArabic => "Extended Arabic",
        Set::BasicCyrillic => "Basic Cyrillic",
        Set::ExtendedCyrillic => "Extended Cyrillic",
        Set::BasicGreek => "Basic Greek",
        Set::GreekSymbols => "Greek Symbols",
        Set::Subscripts => "Subscripts",
        Set::Superscripts => "Superscripts",
        Set::Unknown => "Unknown",
    }
}

fn plain(alloc: Global, text: &str) -> Result<String, NoMemory>
    ensures { IfOk result (λ made. string_bytes made ≡ text.now) }
{
    Ok(String::from_str(alloc, text)?)
}

fn bad_directory(alloc: Global, entry: u32) -> Result<String, NoMemory>
    ensures { IfOk result (λ made. string_bytes made ≡ reason_of (Refusal.BadDirectory entry)) }
{
    Ok(format!(in alloc; "bad directory at entry {entry}")?)
}

fn bad_field(alloc: Global, entry: u32) -> Result<String, NoMemory>
    ensures { IfOk result (λ made. string_bytes made ≡ reason_of (Refusal.BadField entry)) }
{
    Ok(format!(in alloc; "bad field at entry {entry}")?)
}

fn bad_text(alloc: Global, entry: u32, offset: u32) -> Result<String, NoMemory>
    ensures { IfOk result (λ made. string_bytes made ≡ reason_of (Refusal.BadText entry offset)) }
{
    Ok(format!(in alloc; "bad text in entry {entry} at {offset}")?)
}

fn other_set(alloc: Global, set: Set, entry: u32, offset: u32) -> Result<String, NoMemory>
    ensures { IfOk result (λ made. string_bytes made ≡ reason_of (Refusal.OtherSet set entry offset)) }
{
    let name = name_of(set);
    Ok(format!(in alloc; "other set {name} in entry {entry} at {offset}")?)
}

/// The reason of a refusal, as the console prints it.
fn reason(alloc: Global, refusal: Refusal) -> Result<String, NoMemory>
    ensures { IfOk result (λ text. string_bytes text ≡ reason_of refusal) }
{
    match refusal {
        Refusal::Overlong => plain(alloc, "overlong"),
        Refusal::Unfinished => plain(alloc, "unfinished"),
        Refusal::BadLength => plain(alloc, "bad length"),
        Refusal::BadLeader => plain(alloc, "bad leader"),
        Refusal::BadDirectory(entry) => bad_directory(alloc, entry),
        Refusal::BadField(entry) => bad_field(alloc, entry),
        Refusal::UnknownCoding => plain(alloc, "unknown coding"),
        Refusal::BadText(entry, offset) => bad_text(alloc, entry, offset),
        Refusal::OtherType => plain(alloc, "other type"),
        Refusal::NoNumber => plain(alloc, "no number"),
        Refusal::BadCode => plain(alloc, "bad code"),
        Refusal::NoHeading => plain(alloc, "no heading"),
        Refusal::HeadingTooLong => plain(alloc, "heading too long"),
        Refusal::NoRoom => plain(alloc, "no room"),
        Refusal::OtherSet(set, entry, offset) => other_set(alloc, set, entry, offset),
    }
}

/// The line of a refused piece of a file.
#[tactic(auto, unfolding(crate::specs::Lines::refused_line))]
pub fn refused_line(alloc: Global, file: &str, item: &RefusedItem) -> Result<String, NoMemory>
    ensures { IfOk result (λ text. string_bytes text ≡ refused_line file.now item.now) }
{
    let ordinal = item.ordinal;
    let offset = item.offset;
    let number = item.refusal.number();
    let reason = reason(alloc, item.refusal)?;
    Ok(format!(in alloc; "{file} {ordinal} {offset} {number} {reason}\n")?)
}
