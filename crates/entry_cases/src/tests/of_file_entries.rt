use file_entries::{FileEntries, NextEntry};
use marc_types::{Text, can_be_code};
use outside_mem::MemSource;
use std::alloc::Global;
use std::process::Abort;
use std::test::Fail;

/// A record, and a rest without a terminator.
const FILE: &[u8] =
    b"00065nam a2200049 a 4500001000300000245001200003\x1eb3\x1e00\x1faZoology\x1e\x1drest";

fn opened(rt: &impl Abort, alloc: Global) -> Result<FileEntries<MemSource>, Fail> {
    let bytes = Vec::from_slice(alloc, FILE)?;
    let source = MemSource::new(bytes, 7, Vec::new(alloc));
    let library = Text::from_str(alloc, "ULIB")?;
    assert!(rt; can_be_code(library.as_bytes()));
    match FileEntries::new(alloc, source, library, 3) {
        Ok(entries) => Ok(entries),
        Err((_source, fault)) => Err(Fail::from(fault)),
    }
}

/// What comes next: 0 for an entry of number b3, and its ordinal and loader; the number of a refusal, and the item's ordinal and
/// offset; or 255 for the end.
fn seen(next: NextEntry) -> (u8, u64, u64) {
    match next {
        NextEntry::Entry(item) => {
            let entry = item.entry();
            let is_b3 = entry.key.number.as_str() == "b3";
            (
                if is_b3 { 0 } else { 254 },
                entry.ordinal,
                u64::from(entry.loader),
            )
        }
        NextEntry::Refused(item) => (item.refusal.number(), item.ordinal, item.offset),
        NextEntry::End => (255, 0, 0),
        _ => (254, 0, 0),
    }
}

fn next_seen(alloc: Global, entries: &mut FileEntries<MemSource>) -> (u8, u64, u64) {
    if entries.is_over() {
        return (254, 0, 0);
    }
    seen(entries.next(alloc))
}

#[test]
fn an_entry_and_a_refused_item(rt: HostRuntime) -> Result<(), Fail> {
    let mut entries = opened(&rt, rt.alloc())?;
    assert!(rt; next_seen(rt.alloc(), &mut entries) == (0, 1, 3));
    assert!(rt; next_seen(rt.alloc(), &mut entries) == (2, 2, 65));
    assert!(rt; next_seen(rt.alloc(), &mut entries) == (255, 0, 0));
    assert!(rt; entries.is_over());
    Ok(())
}
