//! Which pieces make an entry, and the first refusal of those that make none.

use crate::tests::pieces::{TWAIN, prepared};
use marc_types::{NoMemory, RecordFault, Refusal};
use std::alloc::Global;
use std::process::Abort;
use std::test::Fail;

fn refusal_of(rt: &impl Abort, alloc: Global, piece: &[u8]) -> Result<Option<Refusal>, NoMemory> {
    match prepared(rt, alloc, "ULIB", piece) {
        Ok(_) => Ok(None),
        Err(RecordFault::Refused(refusal)) => Ok(Some(refusal)),
        Err(RecordFault::NoMemory) => Err(NoMemory),
    }
}

/// Mark Twain with another byte at two places.
fn twain_with(alloc: Global, first: (usize, u8), second: (usize, u8)) -> Result<Vec<u8>, NoMemory> {
    let mut piece = Vec::with_capacity(alloc, TWAIN.len())?;
    for (place, byte) in TWAIN.iter().enumerate() {
        if place == first.0 {
            piece.push(first.1)?;
        } else if place == second.0 {
            piece.push(second.1)?;
        } else {
            piece.push(*byte)?;
        }
    }
    Ok(piece)
}

/// The byte that Mark Twain begins with.
const SAME: (usize, u8) = (0, b'0');

/// Two changes of Mark Twain, and the refusal, if any.
const CHANGES: [((usize, u8), (usize, u8), Option<Refusal>); 17] = [
    ((6, b'q'), SAME, Some(Refusal::OtherType)),
    ((26, b'2'), SAME, Some(Refusal::NoNumber)),
    ((84, b'('), SAME, Some(Refusal::BadCode)),
    ((48, b'9'), SAME, Some(Refusal::NoHeading)),
    ((5, b'd'), (48, b'9'), None),
    ((6, b'a'), (48, b'9'), None),
    ((75, 0xff), (6, b'q'), Some(Refusal::BadText(0, 2))),
    ((6, b'q'), (26, b'2'), Some(Refusal::OtherType)),
    ((26, b'2'), (84, b'('), Some(Refusal::NoNumber)),
    ((84, b'('), (48, b'9'), Some(Refusal::BadCode)),
    ((5, 0x7f), SAME, Some(Refusal::BadLeader)),
    ((15, b'2'), (16, b'4'), Some(Refusal::BadLeader)),
    ((16, b'4'), SAME, Some(Refusal::BadDirectory(4))),
    ((37, b'-'), SAME, Some(Refusal::BadDirectory(1))),
    ((54, b'9'), SAME, Some(Refusal::BadField(2))),
    ((46, b'0'), SAME, Some(Refusal::BadField(1))),
    ((9, b'b'), SAME, Some(Refusal::UnknownCoding)),
];

fn is_answer(
    rt: &impl Abort,
    alloc: Global,
    piece: &[u8],
    refusal: Option<Refusal>,
) -> Result<bool, NoMemory> {
    Ok(refusal_of(rt, alloc, piece)? == refusal)
}

#[test]
fn the_first_refusal_of_changed_bytes(rt: HostRuntime) -> Result<(), Fail> {
    for (first, second, refusal) in &CHANGES {
        let piece = twain_with(rt.alloc(), *first, *second)?;
        assert!(rt; is_answer(&rt, rt.alloc(), piece.as_slice(), *refusal)?);
    }
    Ok(())
}

fn append_field(out: &mut Vec<u8>, start: &[u8], letters: u16) -> Result<(), NoMemory> {
    out.extend_from_slice(start)?;
    for _ in 0..letters {
        out.push(b'x')?;
    }
    out.push(0x1e)?;
    Ok(())
}

/// A piece that ends with so many notes of 9,999 bytes, and a field that begins so and has so many letters.
fn long_piece(
    alloc: Global,
    start: &[u8],
    notes: u16,
    last: &[u8],
    letters: u16,
) -> Result<Vec<u8>, NoMemory> {
    let mut piece = Vec::from_slice(alloc, start)?;
    for _ in 0..notes {
        append_field(&mut piece, b"  \x1fa", 9_994)?;
    }
    append_field(&mut piece, last, letters)?;
    piece.push(0x1d)?;
    Ok(piece)
}

/// A piece as `long_piece` makes it, and its refusal, if any.
type Long = (&'static [u8], u16, &'static [u8], u16, Option<Refusal>);

/// Records have room for their headings.
const ROOM: [Long; 5] = [
    (
        b"99999nam a2200157 a 4500001000300000500999900003500999910002500999920001500999930000500999939999500999949998500999959997500999969996500999979995500984789994\x1ex1\x1e",
        9,
        b"  \x1fa",
        9_842,
        None,
    ),
    (
        b"99399nam a2200157 a 4500001000300000500999900003500999910002500999920001500999930000500999939999500999949998500999959997500999969996500999979995700924789994\x1ex1\x1e",
        9,
        b"1 \x1fa",
        9_242,
        None,
    ),
    (
        b"99400nam a2200157 a 4500001000300000500999900003500999910002500999920001500999930000500999939999500999949998500999959997500999969996500999979995700924889994\x1ex1\x1e",
        9,
        b"1 \x1fa",
        9_243,
        Some(Refusal::NoRoom),
    ),
    (
        b"09452nam a2200049 a 4500001000300000700939900003\x1ex1\x1e",
        0,
        b"1 \x1fa",
        9_394,
        None,
    ),
    (
        b"09453nam a2200049 a 4500001000300000700940000003\x1ex1\x1e",
        0,
        b"1 \x1fa",
        9_395,
        Some(Refusal::NoRoom),
    ),
];

/// Headings have up to 512 bytes.
const HEADINGS: [Long; 6] = [
    (
        b"00584nz  a2200061n  4500001000300000003000400003100051500007\x1en1\x1eDLC\x1e",
        0,
        b"1 \x1fa",
        510,
        None,
    ),
    (
        b"00585nz  a2200061n  4500001000300000003000400003100051600007\x1en1\x1eDLC\x1e",
        0,
        b"1 \x1fa",
        511,
        Some(Refusal::HeadingTooLong),
    ),
    (
        b"00585dz  a2200061n  4500001000300000003000400003100051600007\x1en1\x1eDLC\x1e",
        0,
        b"1 \x1fa",
        511,
        None,
    ),
    (
        b"00610nz  a2200073n  4500001000300000003000400003100001400007410051500021\x1en1\x1eDLC\x1e1 \x1faRoe, Jane\x1e",
        0,
        b"2 \x1fa",
        510,
        None,
    ),
    (
        b"00611nz  a2200073n  4500001000300000003000400003100001400007410051600021\x1en1\x1eDLC\x1e1 \x1faRoe, Jane\x1e",
        0,
        b"2 \x1fa",
        511,
        Some(Refusal::HeadingTooLong),
    ),
    (
        b"09469nz  a2200061n  4500001000300000003000400003100940000007\x1en1\x1eDLC\x1e",
        0,
        b"1 \x1fa",
        9_395,
        Some(Refusal::HeadingTooLong),
    ),
];

fn expect_long(rt: &impl Abort, alloc: Global, rows: &[Long]) -> Result<(), NoMemory> {
    for (start, notes, last, letters, refusal) in rows {
        let piece = long_piece(alloc, start, *notes, last, *letters)?;
        assert!(rt; is_answer(rt, alloc, piece.as_slice(), *refusal)?);
    }
    Ok(())
}

#[test]
fn how_long_records_and_headings_are(rt: HostRuntime) -> Result<(), Fail> {
    expect_long(&rt, rt.alloc(), &ROOM)?;
    expect_long(&rt, rt.alloc(), &HEADINGS)?;
    Ok(())
}

/// Pieces with their keys' codes and numbers.
const KEYS: [(&[u8], &str, &str); 7] = [
    (
        b"00104nam a2200073 a 4500001001400000003000400014001000600018003000600024\x1e n 79 021164 \x1eDLC\x1eother\x1eOTHER\x1e\x1d",
        "DLC",
        "n79021164",
    ),
    (
        b"00096nam a2200073 a 4500001000300000003000700003001000600010003000600016\x1en1\x1e D LC \x1eother\x1eOTHER\x1e\x1d",
        "DLC",
        "n1",
    ),
    (
        b"00090nam a2200073 a 4500001000300000003000100003001000600004003000600010\x1en1\x1e\x1eother\x1eOTHER\x1e\x1d",
        "ULIB",
        "n1",
    ),
    (
        b"00093nam a2200073 a 4500001000300000003000400003001000600007003000600013\x1en1\x1e   \x1eother\x1eOTHER\x1e\x1d",
        "ULIB",
        "n1",
    ),
    (
        b"00096nam a2200073 a 4500001000500000003000500005001000600010003000600016\x1e(n)1\x1eA=!~\x1eother\x1eOTHER\x1e\x1d",
        "A=!~",
        "(n)1",
    ),
    (
        b"00106nam a2200073 a 4500001000300000003001700003001000600020003000600026\x1en1\x1e0123456789abcdef\x1eother\x1eOTHER\x1e\x1d",
        "0123456789abcdef",
        "n1",
    ),
    (
        b"00155nam a2200073 a 4500001006500000003000400065001000600069003000600075\x1e9999999999999999999999999999999999999999999999999999999999999999\x1eDLC\x1eother\x1eOTHER\x1e\x1d",
        "DLC",
        "9999999999999999999999999999999999999999999999999999999999999999",
    ),
];

fn has_key(
    rt: &impl Abort,
    alloc: Global,
    piece: &[u8],
    code: &str,
    number: &str,
) -> Result<bool, RecordFault> {
    let made = prepared(rt, alloc, "ULIB", piece)?;
    let found = &made.entry().key;
    Ok(found.code.as_str() == code && found.number.as_str() == number)
}

#[test]
fn keys_are_of_the_first_number_and_code(rt: HostRuntime) -> Result<(), Fail> {
    for (piece, code, number) in &KEYS {
        assert!(rt; has_key(&rt, rt.alloc(), piece, code, number)?);
    }
    Ok(())
}

const IMPROPER: [(&[u8], Refusal); 7] = [
    (
        b"00107nam a2200073 a 4500001000300000003001800003001000600021003000600027\x1en1\x1e0123456789abcdefg\x1eother\x1eOTHER\x1e\x1d",
        Refusal::BadCode,
    ),
    (
        b"00094nam a2200073 a 4500001000300000003000500003001000600008003000600014\x1en1\x1eD(LC\x1eother\x1eOTHER\x1e\x1d",
        Refusal::BadCode,
    ),
    (
        b"00094nam a2200073 a 4500001000300000003000500003001000600008003000600014\x1en1\x1eDLC)\x1eother\x1eOTHER\x1e\x1d",
        Refusal::BadCode,
    ),
    (
        b"00094nam a2200073 a 4500001000300000003000500003001000600008003000600014\x1en1\x1eD\xc3\xa9C\x1eother\x1eOTHER\x1e\x1d",
        Refusal::BadCode,
    ),
    (
        b"00094nam a2200073 a 4500001000300000003000500003001000600008003000600014\x1e  \x1eD(LC\x1eother\x1eOTHER\x1e\x1d",
        Refusal::NoNumber,
    ),
    (
        b"00094nam a2200073 a 4500001000400000003000400004001000600008003000600014\x1en\x091\x1eDLC\x1eother\x1eOTHER\x1e\x1d",
        Refusal::NoNumber,
    ),
    (
        b"00156nam a2200073 a 4500001006600000003000400066001000600070003000600076\x1e99999999999999999999999999999999999999999999999999999999999999999\x1eDLC\x1eother\x1eOTHER\x1e\x1d",
        Refusal::NoNumber,
    ),
];

#[test]
fn improper_keys(rt: HostRuntime) -> Result<(), Fail> {
    for (piece, refusal) in &IMPROPER {
        assert!(rt; is_answer(&rt, rt.alloc(), piece, Some(*refusal))?);
    }
    Ok(())
}
