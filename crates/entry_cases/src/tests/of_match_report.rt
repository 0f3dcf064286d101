use super::pieces::prepared;
use entry_record::Prepared;
use marc_types::{NoMemory, Text};
use match_report::{Groups, Matches, isbn_of};
use outside::Failed;
use outside_mem::MemSink;
use std::alloc::Global;
use std::process::Abort;
use std::test::Fail;

const TEN: &[u8] =
    b"00068nam a2200049 a 4500001000300000020001500003\x1eb1\x1e  \x1fa0306406152\x1e\x1d";

const THIRTEEN: &[u8] =
    b"00082nam a2200049 a 4500001000300000020002900003\x1eb2\x1e  \x1fa978-0-306-40615-7 (pbk.)\x1e\x1d";

const WITHOUT: &[u8] =
    b"00062nam a2200049 a 4500001000300000245000900003\x1eb2\x1e00\x1faBare\x1e\x1d";

const TWICE: &[u8] =
    b"00139nam a2200073 a 4500001000300000010001700003020003000020020001500050\x1eb3\x1e  \x1fa   85123456 \x1e  \x1fa0306406152\x1fa9780306406157\x1e  \x1fa0306406153\x1e\x1d";

const BY_LCCN: &[u8] =
    b"00066nam a2200049 a 4500001000300000010001300003\x1eb0\x1e  \x1fa85123456\x1e\x1d";

const DELETED: &[u8] = b"00041dam a2200037 a 4500001000300000\x1eb1\x1e\x1d";

// Each call in a function of its own, since its clauses would be unfolded at each later goal.
fn groups_of(alloc: Global, table: &Matches) -> Result<Groups<'_>, NoMemory> {
    table.groups(alloc)
}

fn write(groups: &Groups<'_>, out: &mut MemSink) -> Result<(), Failed> {
    groups.write(out)
}

fn put(alloc: Global, table: &mut Matches, item: &Prepared) -> Result<(), NoMemory> {
    table.put(alloc, item.entry())
}

fn isbn(alloc: Global, text: &Text) -> Result<Option<[u8; 13]>, NoMemory> {
    isbn_of(alloc, text)
}

fn written(alloc: Global, table: &Matches) -> Result<Vec<u8>, Fail> {
    let mut out = MemSink::new(alloc, Vec::new(alloc));
    let groups = groups_of(alloc, table)?;
    write(&groups, &mut out)?;
    Ok(out.into_bytes())
}

// What is told when these pieces were committed in turn.
fn told(rt: &impl Abort, alloc: Global, pieces: &[&[u8]]) -> Result<Vec<u8>, Fail> {
    let mut table = Matches::new(alloc);
    for piece in pieces {
        let item = prepared(rt, alloc, "ULIB", piece)?;
        put(alloc, &mut table, &item)?;
    }
    written(alloc, &table)
}

// Pieces, and what is told of them: an older and today's form match; a replaced record matches no more; nor does a deleted one;
// and a number counts once in a record.
const TOLD: [(&[&[u8]], &[u8]); 4] = [
    (
        &[TEN, THIRTEEN],
        b"ISBN 9780306406157 (ULIB)b1 (ULIB)b2\nTOTAL groups=1\n",
    ),
    (&[TEN, THIRTEEN, WITHOUT], b"TOTAL groups=0\n"),
    (
        &[TEN, THIRTEEN, TWICE, DELETED, BY_LCCN],
        b"ISBN 9780306406157 (ULIB)b2 (ULIB)b3\nLCCN 85123456 (ULIB)b0 (ULIB)b3\nTOTAL groups=2\n",
    ),
    (&[TWICE], b"TOTAL groups=0\n"),
];

#[test]
fn groups_of_records(rt: HostRuntime) -> Result<(), Fail> {
    for (pieces, lines) in &TOLD {
        let told = told(&rt, rt.alloc(), pieces)?;
        assert!(rt; told.as_slice() == *lines);
    }
    Ok(())
}

// What a 020 `$a` gives, from the examples of ISO 2108's agencies and with one thing wrong.
const TEXTS: [(&str, &str); 14] = [
    ("0306406152", "9780306406157"),
    ("0-306-40615-2 (hbk.)", "9780306406157"),
    ("978-0-306-40615-7 :", "9780306406157"),
    ("080442957X", "9780804429573"),
    ("0-8044-2957-x", "9780804429573"),
    ("979-10-90636-07-1", "9791090636071"),
    ("0306406153", ""),
    ("9780306406158", ""),
    ("X306406152", ""),
    ("9770317847001", ""),
    ("030640615", ""),
    ("97803064061570", ""),
    (" 0306406152", ""),
    ("", ""),
];

// The number of a text, empty where it has none.
fn number_of(alloc: Global, text: &str) -> Result<Vec<u8>, Fail> {
    let text = Text::from_str(alloc, text)?;
    match isbn(alloc, &text)? {
        Some(isbn) => Ok(isbn.as_slice().to_vec(alloc)?),
        None => Ok(Vec::new(alloc)),
    }
}

#[test]
fn numbers_of_texts(rt: HostRuntime) -> Result<(), Fail> {
    for (text, due) in &TEXTS {
        let number = number_of(rt.alloc(), text)?;
        assert!(rt; number.as_slice() == due.as_bytes());
    }
    Ok(())
}
