ghost use Rattle.std.specs.Prelude.{◌≡◌, ◌<◌, IsSome, length};
ghost use Rattle.form_index.specs.Index.{IsInOrder, row_under};

use form_index::{Among, Candidates, FormIndex, RowForms};
use marc_types::{Key, NoMemory, Text};
use numbering::Numbering;
use std::alloc::Global;
use std::test::Fail;

// A row is taken, another is put under its number, taken and let go, and the first is put back: the index is what it was,
// also where there is no memory for the other row.
fn there_and_back(
    index: &mut FormIndex,
    alloc: Global,
    keys: &Numbering<Key>,
    number: u32,
    other: RowForms,
)
    requires known { number < length keys.now }
    requires ordered { IsInOrder keys.now index.old }
    requires row { IsSome (row_under number index.old) }
    ensures { index.new ≡ index.old }
{
    let Some(first) = index.take(keys, number) else {
        return;
    };
    if index.put(alloc, keys, number, other).is_ok() {
        if let Some(second) = index.take(keys, number) {
            index.let_go(second);
        }
    }
    index.put_back(keys, first);
}

fn key(alloc: Global, number: &str) -> Result<Key, NoMemory> {
    Ok(Key {
        code: Text::from_str(alloc, "DLC")?,
        number: Text::from_str(alloc, number)?,
    })
}

fn row(
    alloc: Global,
    established: u32,
    see_from: &[u32],
    bare: bool,
) -> Result<RowForms, NoMemory> {
    let see_from = Vec::from_slice(alloc, see_from)?;
    Ok(RowForms::new(established, see_from, bare))
}

fn put_row(
    index: &mut FormIndex,
    alloc: Global,
    keys: &Numbering<Key>,
    number: u32,
    forms: RowForms,
) -> Result<(), NoMemory>
    requires ordered { IsInOrder keys.now index.old }
    ensures ordered { IsInOrder keys.now index.new }
{
    if number as usize >= keys.len() || index.row(number).is_some() {
        return Ok(());
    }
    index.put(alloc, keys, number, forms)
}

// Three keys, numbered in another order than theirs.
fn three_keys(alloc: Global) -> Result<Numbering<Key>, NoMemory> {
    let mut keys = Numbering::new(alloc);
    for number in ["3", "1", "2"] {
        keys.add(alloc, &key(alloc, number)?)?;
    }
    Ok(keys)
}

// They share a see-from form, which two of them have twice, and one has its own heading as a see-from form.
fn put_three(index: &mut FormIndex, alloc: Global, keys: &Numbering<Key>) -> Result<(), NoMemory>
    requires ordered { IsInOrder keys.now index.old }
    ensures ordered { IsInOrder keys.now index.new }
{
    put_row(index, alloc, keys, 0, row(alloc, 7, &[5, 5, 7], true)?)?;
    put_row(index, alloc, keys, 1, row(alloc, 8, &[5, 9, 5], false)?)?;
    put_row(index, alloc, keys, 2, row(alloc, 7, &[6, 5], true)?)
}

fn are(found: Candidates<'_>, established: &[u32], see_from: &[u32]) -> bool {
    match found {
        Candidates::Established(numbers) => numbers == established,
        Candidates::SeeFrom(numbers) => established.is_empty() && numbers == see_from,
        Candidates::Nobody => established.is_empty() && see_from.is_empty(),
    }
}

fn has_three(index: &FormIndex) -> bool {
    are(index.candidates(5, Among::All), &[], &[1, 2, 0])
        && are(index.candidates(5, Among::Bare), &[], &[2, 0])
        && are(index.candidates(7, Among::All), &[2, 0], &[])
        && are(index.candidates(8, Among::Bare), &[], &[])
}

#[test]
fn a_form_that_three_keys_share(rt: HostRuntime) -> Result<(), Fail> {
    let alloc = rt.alloc();
    let keys = three_keys(alloc)?;
    let mut index = FormIndex::new(alloc);
    put_three(&mut index, alloc, &keys)?;
    assert!(rt; has_three(&index));
    let other = row(alloc, 5, &[], true)?;
    assert!(rt; keys.len() == 3);
    assert!(rt; index.row(2).is_some());
    there_and_back(&mut index, alloc, &keys, 2, other);
    assert!(rt; has_three(&index));
    Ok(())
}
