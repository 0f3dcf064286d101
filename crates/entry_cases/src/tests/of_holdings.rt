use holdings::{Holding, HoldingFault, HoldingShelf, PackedHolding, admit_holding};
use marc_types::{Field, Fields, Leader, Record, Tag, Text, makes_record};
use packed_keys::PackedKey;
use std::alloc::Global;
use std::process::Abort;
use std::test::Fail;

/// Leader bytes 05 and 06, the 001, and the 004s.
type Row = (u8, u8, &'static str, &'static [&'static str]);

fn control(alloc: Global, last: u8, text: &str) -> Result<Field, Fail> {
    let tag = Tag {
        a: b'0',
        b: b'0',
        c: last,
    };
    let text = Text::from_str(alloc, text)?;
    Ok(Field::Control { tag, text })
}

fn record_of(rt: &impl Abort, alloc: Global, row: &Row) -> Result<Record, Fail> {
    let (status, rtype, number, targets) = *row;
    let leader = Leader {
        status,
        rtype,
        level: b' ',
        control: b' ',
        encoding: b'1',
        form: b'n',
        linked: b' ',
    };
    let mut fields = Vec::new(alloc);
    fields.push(control(alloc, b'1', number)?)?;
    for target in targets {
        fields.push(control(alloc, b'4', target)?)?;
    }
    let fields = Fields::from_vec(fields);
    assert!(rt; makes_record(&leader, fields.as_slice()));
    Ok(Record { leader, fields })
}

fn admitted(
    rt: &impl Abort,
    alloc: Global,
    row: &Row,
    code: &str,
) -> Result<Result<Holding, HoldingFault>, Fail> {
    let rec = record_of(rt, alloc, row)?;
    let code = Text::from_str(alloc, code)?;
    Ok(admit_holding(alloc, rec, &code))
}

/// 65 characters.
const LONG: &str = "12345678901234567890123456789012345678901234567890123456789012345";

const TARGETS: [(Row, &str, &str); 5] = [
    ((b'n', b'u', "h1", &["b1"]), "ULIB", "b1"),
    ((b'n', b'v', "h1", &[" b 1 "]), "ULIB", "b1"),
    ((b'd', b'x', "h1", &["b1", "b2"]), "ULIB", "b1"),
    ((b'n', b'y', "h1", &["b2", LONG]), "ULIB", "b2"),
    ((b'n', b'x', "h1", &["b1"]), "DLC", "b1"),
];

/// Whether a holding is the first of its library and has this target and leader byte 05.
fn is_holding(holding: &Holding, code: &str, number: &str, status: u8) -> bool {
    let found = holding.target();
    holding.key().number.as_str() == "h1"
        && found.code.as_str() == code
        && found.number.as_str() == number
        && holding.rec().leader.status == status
}

fn is_admitted(
    rt: &impl Abort,
    alloc: Global,
    (row, code, target): &(Row, &str, &str),
) -> Result<bool, Fail> {
    match admitted(rt, alloc, row, code)? {
        Ok(holding) => Ok(is_holding(&holding, code, target, row.0)),
        Err(_fault) => Ok(false),
    }
}

#[test]
fn targets_of_holdings(rt: HostRuntime) -> Result<(), Fail> {
    for case in &TARGETS {
        assert!(rt; is_admitted(&rt, rt.alloc(), case)?);
    }
    Ok(())
}

const REFUSALS: [(Row, &str, u8); 8] = [
    ((b'n', b'a', "", &[]), "ULIB", 9),
    ((b'n', b'z', "h1", &["b1"]), "ULIB", 9),
    ((b'n', b'x', " ", &[]), "ULIB", 10),
    ((b'n', b'x', "h1", &[]), "U(B", 11),
    ((b'n', b'x', "h1", &[]), "ULIB", 17),
    ((b'd', b'x', "h1", &[]), "ULIB", 17),
    ((b'n', b'x', "h1", &["  ", "b1"]), "ULIB", 17),
    ((b'n', b'x', "h1", &[LONG]), "ULIB", 17),
];

fn is_refused(
    rt: &impl Abort,
    alloc: Global,
    (row, code, number): &(Row, &str, u8),
) -> Result<bool, Fail> {
    match admitted(rt, alloc, row, code)? {
        Err(HoldingFault::Refused(refusal)) => Ok(refusal.number() == *number),
        _ => Ok(false),
    }
}

#[test]
fn refusals_in_order(rt: HostRuntime) -> Result<(), Fail> {
    for case in &REFUSALS {
        assert!(rt; is_refused(&rt, rt.alloc(), case)?);
    }
    Ok(())
}

/// A holding that replaces another under another target, and one that deletes.
const SHELVED: [Row; 5] = [
    (b'n', b'x', "h2", &["b1"]),
    (b'n', b'x', "h1", &["b1"]),
    (b'n', b'y', "h3", &["b1"]),
    (b'c', b'v', "h2", &["b2"]),
    (b'd', b'x', "h1", &["b1"]),
];

/// Of 56 bytes, with leader 05 `c` and 06 `v`.
const CHANGED_LEADER: &[u8] = b"00056cv  a22000491n 4500";

/// Whether a row is of this number and target.
fn is_row((key, holding): (&PackedKey, &PackedHolding), number: &[u8], target: &[u8]) -> bool {
    key.number() == number && holding.target_number() == target
}

fn has_two_rows(shelf: &HoldingShelf) -> bool {
    let mut rows = shelf.rows();
    match (rows.next(), rows.next()) {
        (Some((first, replaced)), Some(second)) => {
            is_row((first, replaced), b"h2", b"b2")
                && replaced.written().starts_with(CHANGED_LEADER)
                && is_row(second, b"h3", b"b1")
        }
        _ => false,
    }
}

fn shelve(rt: &impl Abort, alloc: Global, shelf: &mut HoldingShelf, row: &Row) -> Result<(), Fail> {
    match admitted(rt, alloc, row, "ULIB")? {
        Ok(holding) => Ok(shelf.put(alloc, holding)?),
        Err(_fault) => panic!(rt; "not admitted"),
    }
}

#[test]
fn a_replaced_and_a_deleted_holding(rt: HostRuntime) -> Result<(), Fail> {
    let mut shelf = HoldingShelf::new(rt.alloc());
    for row in &SHELVED {
        shelve(&rt, rt.alloc(), &mut shelf, row)?;
    }
    assert_eq!(rt; shelf.len(), 2);
    assert!(rt; has_two_rows(&shelf));
    Ok(())
}
