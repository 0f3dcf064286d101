//! The numbers of a record.
ghost use Rattle.std.specs.Prelude.{◌≡◌, ◌++◌, [], IfOk, OnOk};
ghost use Rattle.std.specs.List.{cons_option};
ghost use Rattle.entry_record.specs.Identity.{has_tag};
ghost use Rattle.match_report.specs.Numbers.{numbers_of, isbns_of_field, lccns_of_field, isbn_of_subfield, lccn_of_subfield, lccn_of};

use crate::isbn::isbn_of;
use crate::number::{Number, Numbers};
use marc_types::{Field, NoMemory, Record, Subfield, Tag, Text, can_be_number};
use std::alloc::Global;

/// The code of the subfield that has a number, `$a`.
const NUMBER: u8 = b'a';

const ISBN: Tag = Tag {
    a: b'0',
    b: b'2',
    c: b'0',
};

const LCCN: Tag = Tag {
    a: b'0',
    b: b'1',
    c: b'0',
};

fn is_tag(tag: &Tag, wanted: Tag) -> bool
    ensures { result ≡ has_tag wanted.a wanted.b wanted.c tag.now }
{
    tag.a == wanted.a && tag.b == wanted.b && tag.c == wanted.c
}

/// The control number of a text: what it is without blanks, where a key could have that number.
fn lccn_of(alloc: Global, text: &Text) -> Result<Option<Text>, NoMemory>
    ensures { IfOk result (λ found. found ≡ lccn_of text.now) }
{
    let filled = text.without_blanks(alloc)?;
    if can_be_number(filled.as_bytes()) {
        Ok(Some(filled))
    } else {
        Ok(None)
    }
}

fn isbn_of_subfield(alloc: Global, subfield: &Subfield) -> Result<Option<Number>, NoMemory>
    ensures { IfOk result (λ found. found ≡ isbn_of_subfield subfield.now) }
{
    if subfield.code != NUMBER {
        return Ok(None);
    }
    match isbn_of(alloc, &subfield.text)? {
        Some(isbn) => Ok(Some(Number::Isbn(isbn))),
        None => Ok(None),
    }
}

fn lccn_of_subfield(alloc: Global, subfield: &Subfield) -> Result<Option<Number>, NoMemory>
    ensures { IfOk result (λ found. found ≡ lccn_of_subfield subfield.now) }
{
    if subfield.code != NUMBER {
        return Ok(None);
    }
    match lccn_of(alloc, &subfield.text)? {
        Some(lccn) => Ok(Some(Number::Lccn(lccn))),
        None => Ok(None),
    }
}

/// Takes a number, where there is one.
fn add(found: &mut Vec<Number>, number: Option<Number>) -> Result<(), NoMemory>
    ensures { OnOk result (found.new.items ≡ found.old.items ++ cons_option number []) }
{
    if let Some(number) = number {
        found.push(number)?;
    }
    Ok(())
}

#[tactic(auto, unfolding(crate::specs::Numbers::isbns_of_field))]
fn add_isbns(alloc: Global, field: &Field, found: &mut Vec<Number>) -> Result<(), NoMemory>
    ensures { OnOk result (found.new.items ≡ found.old.items ++ isbns_of_field field.now) }
{
    if !is_tag(field.tag(), ISBN) {
        return Ok(());
    }
    for subfield in field.subfields() {
        let isbn = isbn_of_subfield(alloc, subfield)?;
        add(found, isbn)?;
    }
    Ok(())
}

#[tactic(auto, unfolding(crate::specs::Numbers::lccns_of_field))]
fn add_lccns(alloc: Global, field: &Field, found: &mut Vec<Number>) -> Result<(), NoMemory>
    ensures { OnOk result (found.new.items ≡ found.old.items ++ lccns_of_field field.now) }
{
    if !is_tag(field.tag(), LCCN) {
        return Ok(());
    }
    for subfield in field.subfields() {
        let lccn = lccn_of_subfield(alloc, subfield)?;
        add(found, lccn)?;
    }
    Ok(())
}

/// The numbers of a record: those of its 020 fields, and then those of its 010 fields, each in the record's order.
#[tactic(auto, unfolding(crate::specs::Numbers::numbers_of))]
pub fn numbers(alloc: Global, rec: &Record) -> Result<Numbers, NoMemory>
    ensures { IfOk result (λ found. found ≡ numbers_of rec.now.fields) }
{
    let mut found = Vec::new(alloc);
    for field in rec.fields.as_slice() {
        add_isbns(alloc, field, &mut found)?;
    }
    for field in rec.fields.as_slice() {
        add_lccns(alloc, field, &mut found)?;
    }
    // a table keeps them long, so no spare room stays
    found.shrink_to_fit();
    Ok(Numbers::from_vec(found))
}
