//! Whether a catalogue's state is that of kept rows.
ghost use Rattle.std.specs.Prelude.{◌≡◌, ◌↔◌, ◌∷◌, [], All, IfOk, IsTrue, MatchOption, length};
ghost use Rattle.std.specs.Cmp.Lexicographic.{pointwise};
ghost use Rattle.catalogue_rules.specs.Sameness.{same_tie};
ghost use Rattle.catalogue_rules.specs.State.{new_tie, rows_of};
ghost use Rattle.checkpoint.specs.Format.{ties_of};
ghost use Rattle.kept_rows.specs.Rows.{is_of, row_of, rows_in, state_of_rows};
ghost use Rattle.numbered_store.specs.Kept.{kept_record};

use crate::feeding::is_new;
use catalogue_core::Engine;
use kept_rows::KeptRow;
use marc_types::{Class, Key, NoMemory, Tie};
use numbered_store::StoredRecord;
use std::alloc::Global;

/// Whether a catalogue's state is exactly that of these rows: the same records under the same keys, field by field, each with its tie.
pub fn has_state_of(alloc: Global, engine: &Engine, rows: &[KeptRow]) -> Result<bool, NoMemory>
    ensures { IfOk result (λ told. IsTrue told ↔ (engine.now.state ≡ state_of_rows rows.now)) }
{
    if !has_rows_of(alloc, engine, Class::Authority, rows)? {
        return Ok(false);
    }
    has_rows_of(alloc, engine, Class::Bibliographic, rows)
}

// Whether the records of a class are those of the rows that are of the class.
fn has_rows_of(
    alloc: Global,
    engine: &Engine,
    class: Class,
    rows: &[KeptRow],
) -> Result<bool, NoMemory>
    ensures { IfOk result (λ told. IsTrue told ↔ (rows_of class engine.now.state ≡ rows_in class rows.now)) }
{
    let mut rest = rows;
    for (key, kept) in engine.rows(alloc, class)? {
        let Some((row, behind)) = next_of(class, rest) else {
            return Ok(false);
        };
        if !is_row(key, kept, row) {
            return Ok(false);
        }
        rest = behind;
    }
    Ok(next_of(class, rest).is_none())
}

// The first row of a class, and what stands behind it.
fn next_of(class: Class, rows: &[KeptRow]) -> Option<(&KeptRow, &[KeptRow])>
    ensures { MatchOption result
        (rows_in class rows.now ≡ [])
        (λ found. rows_in class rows.now ≡ row_of found.0.now ∷ rows_in class found.1.now) }
{
    let mut rest = rows;
    while let Some((row, behind)) = rest.split_first() {
        if is_of(class, row) {
            return Some((row, behind));
        }
        rest = behind;
    }
    None
}

fn is_of(class: Class, row: &KeptRow) -> bool
    ensures { result ≡ is_of class row.now }
{
    match (row.class, class) {
        (Class::Authority, Class::Authority) => true,
        (Class::Bibliographic, Class::Bibliographic) => true,
        _ => false,
    }
}

// Whether a key and the record under it are those of a row.
fn is_row(key: &Key, kept: &StoredRecord, row: &KeptRow) -> bool
    ensures { IsTrue result ↔ ((key.now, kept_record kept.now) ≡ row_of row.now) }
{
    *key == row.key && has_record(kept, row)
}

// Whether a kept record is that of a row: its written form, and the tie of each field.
fn has_record(kept: &StoredRecord, row: &KeptRow) -> bool
    ensures { IsTrue result ↔ (kept_record kept.now ≡ (row_of row.now).1) }
{
    row.rec.fits();
    are_equal(kept.as_bytes(), row.rec.as_bytes()) && has_ties(kept, row.ties.as_slice())
}

fn are_equal(one: &[u8], other: &[u8]) -> bool
    ensures { IsTrue result ↔ (one.now ≡ other.now) }
{
    one == other
}

// Whether so many ties are those of a kept record.
fn has_ties(kept: &StoredRecord, ties: &[Tie]) -> bool
    requires { length ties.now ≡ length (kept_record kept.now).fields }
    ensures { IsTrue result ↔ (ties_of (kept_record kept.now) ≡ ties.now) }
{
    match kept.ties() {
        Some(own) => same_ties(own, ties),
        None => are_new(ties),
    }
}

#[tactic(auto, unfolding(catalogue_rules::specs::Sameness::same_tie))]
fn same_ties(one: &[Tie], other: &[Tie]) -> bool
    ensures { result ≡ pointwise same_tie one.now other.now }
{
    one == other
}

// Whether each tie is that of a field that comes in.
fn are_new(ties: &[Tie]) -> bool
    ensures { IsTrue result ↔ All (λ tie. tie ≡ new_tie) ties.now }
{
    ties.iter().all(is_new)
}
