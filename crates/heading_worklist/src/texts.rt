//! Texts of headings and records.
ghost use Rattle.std.specs.Prelude.{◌≡◌, ◌++◌, ℕ, List, filter, map, IfOk, OnOk};
ghost use Rattle.heading_worklist.specs.Texts.{field_text, heading_text, identifiers_text, joined_by, kind_word, title_text, texts_of};
ghost use Rattle.heading_worklist.specs.Wanted.{is_wanted};

use heading_fields::full;
use marc_types::{Class, Field, Kind, NoMemory, Subfield};
use std::alloc::{AllocError, Global};

/// How a list names a kind.
pub fn kind_word(kind: Kind) -> &'static str
    ensures { result.now ≡ kind_word kind }
{
    match kind {
        Kind::Personal => "personal",
        Kind::Corporate => "corporate",
        Kind::Meeting => "meeting",
        Kind::Title => "title",
        Kind::Chronological => "chronological",
        Kind::Topical => "topical",
        Kind::Geographic => "geographic",
        Kind::Genre => "genre",
    }
}

/// Which subfields of a field a cell shows: those whose code is a letter, those of a title, or the identifiers.
#[derive(Clone, Copy, Debug, PartialEq, Eq)]
pub(crate) enum Wanted {
    Letters,
    OfTitle,
    Identifiers,
}

fn is_wanted(wanted: Wanted, subfield: &Subfield) -> bool
    ensures { result ≡ is_wanted wanted subfield.now }
{
    match wanted {
        Wanted::Letters => b'a' <= subfield.code && subfield.code <= b'z',
        Wanted::OfTitle => matches!(subfield.code, b'a' | b'b' | b'n' | b'p'),
        Wanted::Identifiers => subfield.code == b'0',
    }
}

/// The texts of the subfields that are wanted.
fn wanted_texts<'a>(
    alloc: Global,
    subfields: &'a [Subfield],
    wanted: Wanted,
) -> Result<Vec<&'a [u8]>, NoMemory>
    ensures { IfOk result (λ texts. map (λ text. text.now) texts.items ≡ texts_of (filter (is_wanted wanted) subfields.now)) }
{
    let mut texts = Vec::new(alloc);
    for subfield in subfields {
        if is_wanted(wanted, subfield) {
            texts.push(subfield.text.as_bytes())?;
        }
    }
    Ok(texts)
}

/// The texts of subfields.
fn all_texts<'a>(alloc: Global, subfields: &'a [Subfield]) -> Result<Vec<&'a [u8]>, NoMemory>
    ensures { IfOk result (λ texts. map (λ text. text.now) texts.items ≡ texts_of subfields.now) }
{
    let mut texts = Vec::with_capacity(alloc, subfields.len())?;
    for subfield in subfields {
        texts.push(subfield.text.as_bytes())?;
    }
    Ok(texts)
}

/// Texts, a separator between each two.
pub(crate) fn add_joined(
    cell: &mut Vec<u8>,
    texts: &[&[u8]],
    separator: &str,
) -> Result<(), AllocError>
    ensures { OnOk result (cell.new.items ≡ cell.old.items ++ joined_by separator.now (map (λ text. text.now) texts.now)) }
{
    let [first, others @ ..] = texts else {
        return Ok(());
    };
    cell.extend_from_slice(first)?;
    for text in others {
        cell.extend_from_slice(separator.as_bytes())?;
        cell.extend_from_slice(text)?;
    }
    Ok(())
}

/// The text of a heading: its full part.
pub fn add_heading(
    alloc: Global,
    cell: &mut Vec<u8>,
    field: &Field,
    kind: Kind,
    class: Class,
) -> Result<(), NoMemory>
    ensures { OnOk result (cell.new.items ≡ cell.old.items ++ heading_text kind class field.now) }
{
    let part = full(alloc, field, kind, class)?;
    let texts = all_texts(alloc, part.as_slice())?;
    add_joined(cell, &texts, " ")?;
    Ok(())
}

/// The text of a field.
pub(crate) fn add_field_text(
    alloc: Global,
    cell: &mut Vec<u8>,
    field: &Field,
) -> Result<(), NoMemory>
    ensures { OnOk result (cell.new.items ≡ cell.old.items ++ field_text field.now) }
{
    let texts = wanted_texts(alloc, field.subfields(), Wanted::Letters)?;
    add_joined(cell, &texts, " ")?;
    Ok(())
}

/// The title of a 245.
pub(crate) fn add_title(alloc: Global, cell: &mut Vec<u8>, field: &Field) -> Result<(), NoMemory>
    ensures { OnOk result (cell.new.items ≡ cell.old.items ++ title_text field.now) }
{
    let texts = wanted_texts(alloc, field.subfields(), Wanted::OfTitle)?;
    add_joined(cell, &texts, " ")?;
    Ok(())
}

/// The texts of a field's `$0`.
pub fn add_identifiers(alloc: Global, cell: &mut Vec<u8>, field: &Field) -> Result<(), NoMemory>
    ensures { OnOk result (cell.new.items ≡ cell.old.items ++ identifiers_text field.now) }
{
    let texts = wanted_texts(alloc, field.subfields(), Wanted::Identifiers)?;
    add_joined(cell, &texts, " | ")?;
    Ok(())
}
