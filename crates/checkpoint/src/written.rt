//! What is written of checkpoints.
ghost use Rattle.std.specs.Prelude.{◌≡◌, ◌≤◌, [], ◌++◌, length, All, IfOk, OnOk, OnErr, IfSome};
ghost use Rattle.numbered_store.specs.Kept.{blanks, kept_record};
ghost use Rattle.checkpoint.specs.Format.{coded, key_bytes, optional_key_bytes, flag, tie_flags, tie_bytes, class_byte, head_bytes, ties_of, kept_bytes, part_bytes};
ghost use Rattle.checkpoint.specs.Parts.{IsProperKey, IsProperTie};
ghost use Rattle.checkpoint.specs.Reading.{ties_bytes};
ghost use Rattle.checkpoint.specs.declared.part.Part.TheVariants.{Begin, Rows, End};

use crate::heads::{AUTHORITY, BIBLIOGRAPHIC};
use crate::parts::{BEGIN, END, ROWS};
use marc_types::{Class, Key, NoMemory, Tie, TiedKey};
use numbered_store::StoredRecord;
use std::alloc::Global;

/// How many bytes the end of a checkpoint takes.
const END_LEN: usize = 17;

/// What a tie's first byte says: that the field is linked, is whole, and awaits a key.
const LINKED: u8 = 1;

const WHOLE: u8 = 2;

const AWAITS: u8 = 4;

/// Appends a text behind its length.
#[tactic(auto, unfolding(crate::specs::Format::coded))]
fn append_coded(out: &mut Vec<u8>, text: &[u8]) -> Result<(), NoMemory>
    requires { length text.now ≤ 255 }
    ensures { OnOk result (out.new.items ≡ out.old.items ++ coded text.now) }
{
    out.push(text.len() as u8)?;
    out.extend_from_slice(text)?;
    Ok(())
}

#[tactic(auto, using(crate::proofs::Bounds::proper_code, crate::proofs::Bounds::proper_number), unfolding(crate::specs::Format::key_bytes))]
fn append_key(out: &mut Vec<u8>, key: &Key) -> Result<(), NoMemory>
    requires { IsProperKey key.now }
    ensures { OnOk result (out.new.items ≡ out.old.items ++ key_bytes key.now) }
{
    append_coded(out, key.code.as_bytes())?;
    append_coded(out, key.number.as_bytes())
}

fn append_optional_key(out: &mut Vec<u8>, key: &Option<TiedKey>) -> Result<(), NoMemory>
    requires { IfSome key.now IsProperKey }
    ensures { OnOk result (out.new.items ≡ out.old.items ++ optional_key_bytes key.now) }
{
    match key {
        Some(tied) => append_key(out, tied.key()),
        None => Ok(()),
    }
}

fn flag(value: u8, is_set: bool) -> u8
    ensures value { result ≡ flag value is_set }
    ensures most { result ≤ value }
{
    if is_set { value } else { 0 }
}

fn flags_of(tie: &Tie) -> u8
    ensures { result ≡ tie_flags tie.now }
{
    let linked = flag(LINKED, tie.key.is_some());
    let whole = flag(WHOLE, tie.whole);
    let awaits = flag(AWAITS, tie.awaits.is_some());
    linked + whole + awaits
}

#[tactic(auto, unfolding(crate::specs::Format::tie_bytes))]
fn append_tie(out: &mut Vec<u8>, tie: &Tie) -> Result<(), NoMemory>
    requires { IsProperTie tie.now }
    ensures { OnOk result (out.new.items ≡ out.old.items ++ tie_bytes tie.now) }
{
    out.push(flags_of(tie))?;
    append_optional_key(out, &tie.key)?;
    append_optional_key(out, &tie.awaits)
}

fn append_ties(out: &mut Vec<u8>, ties: &[Tie]) -> Result<(), NoMemory>
    requires { All IsProperTie ties.now }
    ensures { OnOk result (out.new.items ≡ out.old.items ++ ties_bytes ties.now) }
{
    for tie in ties {
        append_tie(out, tie)?;
    }
    Ok(())
}

fn byte_of(class: Class) -> u8
    ensures { result ≡ class_byte class }
{
    match class {
        Class::Authority => AUTHORITY,
        Class::Bibliographic => BIBLIOGRAPHIC,
    }
}

/// Appends what stands before a kept record's ties.
#[tactic(auto, unfolding(crate::specs::Format::head_bytes, crate::specs::Format::sized))]
fn append_head(out: &mut Vec<u8>, class: Class, code: &[u8], written: &[u8]) -> Result<(), NoMemory>
    requires code { length code.now ≤ 255 }
    requires size { length written.now ≤ 99999 }
    ensures { OnOk result (out.new.items ≡ out.old.items ++ head_bytes class code.now written.now) }
{
    out.push(byte_of(class))?;
    append_coded(out, code)?;
    let len = written.len() as u32;
    out.extend_from_slice(&len.to_be_bytes())?;
    out.extend_from_slice(written)?;
    Ok(())
}

/// Appends so many blank ties.
fn append_blank_ties(out: &mut Vec<u8>, count: u32) -> Result<(), NoMemory>
    ensures { OnOk result (out.new.items ≡ out.old.items ++ ties_bytes (blanks count)) }
{
    for done in 0..count {
        let _blanks = done;
        out.push(0)?;
    }
    Ok(())
}

/// Appends the ties of a kept record. Where none are kept, all are blank.
fn append_kept_ties(out: &mut Vec<u8>, kept: &StoredRecord) -> Result<(), NoMemory>
    requires { All IsProperTie (ties_of (kept_record kept.now)) }
    ensures { OnOk result (out.new.items ≡ out.old.items ++ ties_bytes (ties_of (kept_record kept.now))) }
{
    match kept.ties() {
        Some(ties) => append_ties(out, ties),
        None => append_blank_ties(out, kept.field_count()),
    }
}

#[tactic(auto, using(crate::proofs::Bounds::proper_code, crate::proofs::Kept::kept_short), unfolding(crate::specs::Format::kept_bytes))]
fn append_parts(
    out: &mut Vec<u8>,
    class: Class,
    key: &Key,
    kept: &StoredRecord,
) -> Result<(), NoMemory>
    requires key { IsProperKey key.now }
    requires ties { All IsProperTie (ties_of (kept_record kept.now)) }
    ensures { OnOk result (out.new.items ≡ out.old.items ++ kept_bytes class (key.now, kept_record kept.now)) }
{
    append_head(out, class, key.code.as_bytes(), kept.as_bytes())?;
    append_kept_ties(out, kept)
}

/// Appends a kept record, as it stands in a payload: its bytes as they are, and its ties. At want of memory nothing is appended.
pub fn append_row(
    alloc: Global,
    out: &mut Vec<u8>,
    class: Class,
    key: &Key,
    kept: &StoredRecord,
) -> Result<(), NoMemory>
    requires key { IsProperKey key.now }
    requires ties { All IsProperTie (ties_of (kept_record kept.now)) }
    ensures ok { OnOk result (out.new.items ≡ out.old.items ++ kept_bytes class (key.now, kept_record kept.now)) }
    ensures err { OnErr result (out.new.items ≡ out.old.items) }
{
    let mut row = Vec::new(alloc);
    append_parts(&mut row, class, key, kept)?;
    out.extend_from_slice(row.as_slice())?;
    Ok(())
}

/// The payload that begins a checkpoint.
#[tactic(auto, unfolding(crate::specs::Format::part_bytes))]
pub fn begin_payload() -> [u8; 1]
    ensures { result ≡ part_bytes Begin }
{
    [BEGIN]
}

/// The payload of no kept record yet: each that is appended to it stands in it.
#[tactic(auto, unfolding(crate::specs::Format::part_bytes))]
pub fn begin_rows(alloc: Global) -> Result<Vec<u8>, NoMemory>
    ensures { IfOk result (λ made. made.items ≡ part_bytes (Rows [])) }
{
    let mut made = Vec::new(alloc);
    made.push(ROWS)?;
    Ok(made)
}

/// The payload that ends a checkpoint behind so many entries, of so many records.
#[tactic(auto, unfolding(crate::specs::Format::part_bytes))]
pub fn end_payload(alloc: Global, entries: u64, count: u64) -> Result<Vec<u8>, NoMemory>
    ensures { IfOk result (λ made. made.items ≡ part_bytes (End entries count)) }
{
    let mut made = Vec::with_capacity(alloc, END_LEN)?;
    made.push(END)?;
    made.extend_from_slice(&entries.to_be_bytes())?;
    made.extend_from_slice(&count.to_be_bytes())?;
    Ok(made)
}
