//! The entry of a workload, as `make` commits it.
use plain_commands::Entries;
use std::alloc::Global;
use std::test::Fail;

/// Whether the next is the entry of the first record of seed 0.
fn next_is_first(alloc: Global, entries: &mut Entries) -> Result<bool, Fail> {
    let Some(made) = entries.next(alloc)? else {
        return Ok(false);
    };
    let entry = made.entry();
    let texts = [
        entry.library.as_str(),
        entry.key.code.as_str(),
        entry.key.number.as_str(),
    ];
    let numbers = (entry.loader, entry.ordinal, entry.run);
    Ok(texts == ["UCAT", "UCAT", "b1"] && numbers == (0, 1, 0) && made.size() == 128)
}

fn is_over(alloc: Global, entries: &mut Entries) -> Result<bool, Fail> {
    let next = entries.next(alloc)?;
    Ok(next.is_none())
}

#[test]
fn one_entry(rt: HostRuntime) -> Result<(), Fail> {
    let alloc = rt.alloc();
    let mut entries = Entries::new(alloc, 0, 1)?;
    assert!(rt; next_is_first(alloc, &mut entries)?);
    assert!(rt; is_over(alloc, &mut entries)?);
    Ok(())
}
