//! One book's heading: ambiguous, linked, changed with its authority, and alone again. What is staged shows at once, is gone with
//! `undo`, and stays with `keep`.
ghost use Rattle.std.specs.Prelude.{◌≡◌, ◌<◌, [], OnOk};

use super::catalogues::{Piece, item_of, take};
use super::of_ambiguity_report::{report, state_report};
use catalogue_core::{Catalogue, Standing, passes_limits};
use catalogue_rules::Steps;
use entry_record::Prepared;
use marc_types::{Class, Key, Limits, NoMemory, Place, Receipt, Text, Tie};
use std::alloc::Global;
use std::marker::Brand;
use std::process::Abort;
use std::sync::ledger::{Blank, Ledger};
use std::test::Fail;

const SMITH: Piece = (
    "ULIB",
    b"00069nz  a2200049   4500001000300000100001600003\x1en1\x1e1 \x1faSmith, John\x1e\x1d",
);

const SMITH_TOO: Piece = (
    "ULIB",
    b"00070nz  a2200049   4500001000300000100001700003\x1en2\x1e1 \x1faSMITH, JOHN.\x1e\x1d",
);

const SMITHSON: Piece = (
    "ULIB",
    b"00072nz  a2200049   4500001000300000100001900003\x1en2\x1e1 \x1faSmithson, John\x1e\x1d",
);

const JACK: Piece = (
    "ULIB",
    b"00069nz  a2200049   4500001000300000100001600003\x1en1\x1e1 \x1faSmith, Jack\x1e\x1d",
);

const NO_SMITH: Piece = (
    "ULIB",
    b"00041dz  a2200037   4500001000300000\x1en1\x1e\x1d",
);

/// A book under the number of an authority: the classes are apart.
const BOOK: Piece = (
    "ULIB",
    b"00070na  a2200049   4500001000300000100001700003\x1en1\x1e1 \x1faSmith, John.\x1e\x1d",
);

const AMBIGUOUS: &[u8] =
    b"AMBIGUOUS B (ULIB)n1 100 1 (ULIB)n1 (ULIB)n2\nSHARED (ULIB)n1 (ULIB)n2\nTOTAL authorities=2 bibliographic=1 linked=0 ambiguous=1 unlinked=0\n";

const LINKED: &[u8] = b"TOTAL authorities=2 bibliographic=1 linked=1 ambiguous=0 unlinked=0\n";

/// How a field of the book stands, by the numbers of authorities.
#[derive(Clone, Copy)]
enum Stands {
    Linked(&'static str),
    Ambiguous(&'static [&'static str]),
    Unlinked,
    NoHeading,
    Absent,
}

fn key(alloc: Global, number: &str) -> Result<Key, NoMemory> {
    Ok(Key {
        code: Text::from_str(alloc, "ULIB")?,
        number: Text::from_str(alloc, number)?,
    })
}

fn are_numbers(keys: &[Key], numbers: &[&str]) -> bool {
    let mut wanted = numbers.iter();
    for key in keys {
        let Some(number) = wanted.next() else {
            return false;
        };
        if key.number.as_str() != *number {
            return false;
        }
    }
    wanted.next().is_none()
}

fn is_linked_to(tie: &Tie, number: &str) -> bool {
    match &tie.key {
        Some(key) => key.key().number.as_str() == number,
        None => false,
    }
}

/// Whether a field of the book stands so: its tie has the key of a link, and `standing` the keys of an ambiguous field.
fn field_stands(
    alloc: Global,
    catalogue: &Catalogue,
    field: u32,
    expected: Stands,
) -> Result<bool, NoMemory> {
    let place = Place {
        class: Class::Bibliographic,
        key: key(alloc, "n1")?,
        field,
    };
    let engine = catalogue.engine();
    let Some(found) = engine.field_under(alloc, &place)? else {
        return Ok(matches!(expected, Stands::Absent));
    };
    let (at, tie) = found.parts();
    Ok(
        match (engine.standing(alloc, place.class, at, tie)?, expected) {
            (Standing::Linked, Stands::Linked(number)) => is_linked_to(tie, number),
            (Standing::Ambiguous(keys), Stands::Ambiguous(numbers)) => {
                are_numbers(keys.as_slice(), numbers)
            }
            (Standing::Unlinked, Stands::Unlinked) => true,
            (Standing::NoHeading, Stands::NoHeading) => true,
            _ => false,
        },
    )
}

/// Whether a class has records under these numbers, in this order.
fn has_rows(
    alloc: Global,
    catalogue: &Catalogue,
    class: Class,
    numbers: &[&str],
) -> Result<bool, NoMemory> {
    let rows = catalogue.engine().rows(alloc, class)?;
    let mut wanted = numbers.iter();
    for (key, _kept) in rows.iter() {
        let Some(number) = wanted.next() else {
            return Ok(false);
        };
        if key.number.as_str() != *number {
            return Ok(false);
        }
    }
    Ok(wanted.next().is_none() && catalogue.count(class) == numbers.len() as u64)
}

/// Looks at a receipt: its place, how many fields are linked and ambiguous, and the other records that changed.
fn look<E: Drop>(rt: &impl Abort, answer: Result<Receipt, E>, expected: (u64, u32, u32, u64)) {
    match answer {
        Ok(r) => assert!(rt; (r.at, r.linked, r.ambiguous, r.changed_records) == expected),
        Err(_fault) => panic!(rt; "not taken"),
    }
}

// What comes after a call needs of it only that nothing is staged: its other clauses stay in here.
fn stage<L: Ledger>(
    rt: &impl Abort,
    alloc: Global,
    catalogue: &mut Catalogue,
    item: Prepared,
    steps: &mut Steps<L>,
) -> Result<Receipt, NoMemory>
    requires { catalogue.old.staged ≡ [] }
{
    let is_full = passes_limits(
        catalogue.limits(),
        catalogue.history_len(),
        catalogue.bytes(),
        &item,
    );
    assert!(rt; !is_full);
    catalogue.stage(alloc, item, steps)
}

fn undo(catalogue: &mut Catalogue)
    ensures { catalogue.new.staged ≡ [] }
{
    catalogue.undo();
}

fn keep(catalogue: &mut Catalogue)
    ensures { catalogue.new.staged ≡ [] }
{
    catalogue.keep();
}

fn commit<L: Ledger>(
    rt: &impl Abort,
    alloc: Global,
    catalogue: &mut Catalogue,
    piece: &Piece,
    steps: &mut Steps<L>,
    expected: (u64, u32, u32, u64),
) -> Result<(), Fail>
    requires { catalogue.old.staged ≡ [] }
    ensures { catalogue.new.staged ≡ [] }
{
    let item = item_of(rt, alloc, piece)?;
    look(rt, take(alloc, catalogue, item, steps), expected);
    Ok(())
}

fn is_ambiguous(alloc: Global, catalogue: &Catalogue) -> Result<bool, Fail>
    requires { catalogue.now.staged ≡ [] }
{
    Ok(
        field_stands(alloc, catalogue, 1, Stands::Ambiguous(&["n1", "n2"]))?
            && field_stands(alloc, catalogue, 0, Stands::NoHeading)?
            && field_stands(alloc, catalogue, 2, Stands::Absent)?
            && report(alloc, catalogue)?.as_slice() == AMBIGUOUS
            && catalogue.history_len() == 3,
    )
}

// The later authority comes first: rows are in the order of their keys.
fn ambiguity<L: Ledger>(
    rt: &impl Abort,
    alloc: Global,
    catalogue: &mut Catalogue,
    steps: &mut Steps<L>,
) -> Result<(), Fail>
    requires { catalogue.old.staged ≡ [] }
    ensures { catalogue.new.staged ≡ [] }
{
    commit(rt, alloc, catalogue, &SMITH_TOO, steps, (0, 0, 0, 0))?;
    commit(rt, alloc, catalogue, &SMITH, steps, (1, 0, 0, 0))?;
    commit(rt, alloc, catalogue, &BOOK, steps, (2, 0, 1, 0))?;
    assert!(rt; has_rows(alloc, catalogue, Class::Authority, &["n1", "n2"])?);
    assert!(rt; is_ambiguous(alloc, catalogue)?);
    Ok(())
}

// The entry ends the ambiguity as soon as it is staged.
fn stage_smithson<L: Ledger>(
    rt: &impl Abort,
    alloc: Global,
    catalogue: &mut Catalogue,
    steps: &mut Steps<L>,
) -> Result<(), Fail>
    requires { catalogue.old.staged ≡ [] }
{
    let smithson = item_of(rt, alloc, &SMITHSON)?;
    look(
        rt,
        stage(rt, alloc, catalogue, smithson, steps),
        (3, 0, 0, 1),
    );
    assert!(rt; field_stands(alloc, catalogue, 1, Stands::Linked("n1"))?);
    assert!(rt; state_report(alloc, catalogue)?.as_slice() == LINKED);
    assert!(rt; catalogue.history_len() == 4);
    Ok(())
}

fn undone<L: Ledger>(
    rt: &impl Abort,
    alloc: Global,
    catalogue: &mut Catalogue,
    steps: &mut Steps<L>,
) -> Result<(), Fail>
    requires { catalogue.old.staged ≡ [] }
    ensures { OnOk result (catalogue.new.staged ≡ []) }
{
    stage_smithson(rt, alloc, catalogue, steps)?;
    undo(catalogue);
    assert!(rt; is_ambiguous(alloc, catalogue)?);
    Ok(())
}

fn kept<L: Ledger>(
    rt: &impl Abort,
    alloc: Global,
    catalogue: &mut Catalogue,
    steps: &mut Steps<L>,
) -> Result<(), Fail>
    requires { catalogue.old.staged ≡ [] }
    ensures { OnOk result (catalogue.new.staged ≡ []) }
{
    stage_smithson(rt, alloc, catalogue, steps)?;
    keep(catalogue);
    assert!(rt; report(alloc, catalogue)?.as_slice() == LINKED);
    undo(catalogue);
    assert!(rt; report(alloc, catalogue)?.as_slice() == LINKED);
    Ok(())
}

// The heading carries a change of its authority, and stands alone when that is deleted.
fn carry_and_delete<L: Ledger>(
    rt: &impl Abort,
    alloc: Global,
    catalogue: &mut Catalogue,
    steps: &mut Steps<L>,
) -> Result<(), Fail>
    requires { catalogue.old.staged ≡ [] }
    ensures { catalogue.new.staged ≡ [] }
{
    commit(rt, alloc, catalogue, &JACK, steps, (4, 0, 0, 1))?;
    assert!(rt; field_stands(alloc, catalogue, 1, Stands::Linked("n1"))?);
    commit(rt, alloc, catalogue, &NO_SMITH, steps, (5, 0, 0, 1))?;
    assert!(rt; field_stands(alloc, catalogue, 1, Stands::Unlinked)?);
    assert!(rt; has_rows(alloc, catalogue, Class::Authority, &["n2"])?);
    assert!(rt; has_rows(alloc, catalogue, Class::Bibliographic, &["n1"])?);
    Ok(())
}

fn history<L: Ledger>(
    rt: &impl Abort,
    alloc: Global,
    catalogue: &mut Catalogue,
    steps: &mut Steps<L>,
) -> Result<(), Fail>
    requires { catalogue.old.staged ≡ [] }
{
    ambiguity(rt, alloc, catalogue, steps)?;
    undone(rt, alloc, catalogue, steps)?;
    kept(rt, alloc, catalogue, steps)?;
    carry_and_delete(rt, alloc, catalogue, steps)
}

// The catalogue has one owner, which doesn't leave early.
fn with_steps<L: Ledger>(rt: &impl Abort, alloc: Global, blank: Blank) -> Result<(), Fail>
    requires name { blank.name ≡ L.name }
    requires parts { blank.parts ≡ L.parts }
    requires shared { 0 < blank.parts }
{
    let mut steps = Steps::<L>::new(blank);
    let limits = Limits {
        entries: 6,
        bytes: 100_000,
    };
    let mut catalogue = Catalogue::empty(alloc, limits);
    history(rt, alloc, &mut catalogue, &mut steps)
}

#[test]
fn a_heading_follows_its_authorities(rt: HostRuntime) -> Result<(), Fail> {
    with_steps::<Brand>(&rt, rt.alloc(), Blank::new(1))
}
