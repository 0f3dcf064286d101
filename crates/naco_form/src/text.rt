//! The comparison text of a text.
ghost use Rattle.std.specs.Prelude.{◌≡◌, ℕ, List, [], ◌∷◌, flat_map, chars, encode_utf8_all, IsAscii, IfOk, OnOk};
ghost use Rattle.naco_form.specs.Ascii.{ascii_entry};
ghost use Rattle.naco_form.specs.Comparison.{by_table, comparison_bytes, without_marks};
ghost use Rattle.naco_form.specs.Pen.{whole};

use crate::pen::Pen;
use caseless::default_case_fold_str;
use marc_types::{NoMemory, Text};
use std::alloc::Global;
use unicode::properties::GeneralCategory;
use unicode_normalization::to_nfd;

/// The comparison text of a subfield's text under its code: folded and decomposed, without nonspacing marks, with letters
/// and signs by the table, commas as blanks but for the first one under code `a`, and blanks squeezed.
pub fn comparison(alloc: Global, code: u8, text: &Text) -> Result<Text, NoMemory>
    ensures { IfOk result (λ made. made ≡ comparison_bytes code text.now) }
{
    let text = text.as_str();
    if text.is_ascii() {
        return ascii_comparison(alloc, code, text);
    }
    general_comparison(alloc, code, text)
}

/// One pass, since folding lowers ASCII letters and decomposition and the deletion of marks change nothing.
fn ascii_comparison(alloc: Global, code: u8, text: &str) -> Result<Text, NoMemory>
    requires { IsAscii text.now }
    ensures { IfOk result (λ made. made ≡ comparison_bytes code text.now) }
{
    let mut pen = Pen::new(alloc, code, text.len())?;
    write_ascii(alloc, &mut pen, text.as_bytes())?;
    Ok(pen.finish())
}

fn write_ascii(alloc: Global, pen: &mut Pen, bytes: &[u8]) -> Result<(), NoMemory>
    requires { IsAscii bytes.now }
    ensures { OnOk result (whole pen.new [] ≡ whole pen.old (flat_map ascii_entry bytes.now)) }
{
    for &byte in bytes {
        pen.put_ascii(alloc, byte)?;
    }
    Ok(())
}

fn general_comparison(alloc: Global, code: u8, text: &str) -> Result<Text, NoMemory>
    ensures { IfOk result (λ made. made ≡ comparison_bytes code text.now) }
{
    let folded = default_case_fold_str(alloc, text)?;
    let decomposed = to_nfd(alloc, folded.as_str())?;
    let mut pen = Pen::new(alloc, code, decomposed.len())?;
    write_without_marks(alloc, &mut pen, decomposed.as_str())?;
    Ok(pen.finish())
}

fn write_without_marks(alloc: Global, pen: &mut Pen, text: &str) -> Result<(), NoMemory>
    ensures { OnOk result (whole pen.new [] ≡ whole pen.old (by_table (without_marks (chars text.now)))) }
{
    for c in text.chars() {
        write_unless_mark(alloc, pen, c)?;
    }
    Ok(())
}

#[tactic(auto, unfolding(crate::specs::Comparison::by_table, crate::specs::Comparison::without_marks))]
fn write_unless_mark(alloc: Global, pen: &mut Pen, c: char) -> Result<(), NoMemory>
    ensures { OnOk result ((cs : List ℕ) → whole pen.new (by_table (without_marks cs)) ≡ whole pen.old (by_table (without_marks (c ∷ cs)))) }
{
    if GeneralCategory::for_char(c) == GeneralCategory::NonspacingMark {
        return Ok(());
    }
    pen.put_entry(alloc, c)
}
