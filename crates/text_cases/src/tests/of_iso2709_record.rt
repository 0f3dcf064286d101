use super::steps::Short;
use iso2709_record::{encode, encode_into, encode_vec, encoded_len, fits, spelled_once};
use marc_types::{
    Field, Fields, Leader, NoMemory, Record, Subfield, Subfields, Tag, Text, makes_record,
};
use std::alloc::Global;
use std::process::Abort;
use std::test::Fail;

/// A field: its tag, a control field's text or the indicators, and the subfields.
type Line = (
    &'static [u8; 3],
    &'static str,
    &'static [(u8, &'static str)],
);

fn subfields_of(alloc: Global, list: &[(u8, &str)]) -> Result<Subfields, NoMemory> {
    let mut subfields = Vec::with_capacity(alloc, list.len())?;
    for (code, text) in list {
        let text = Text::from_str(alloc, text)?;
        subfields.push(Subfield { code: *code, text })?;
    }
    Ok(Subfields::from_vec(subfields))
}

fn field_of(alloc: Global, line: &Line) -> Result<Field, NoMemory> {
    let (&[a, b, c], text, subfields) = *line;
    let tag = Tag { a, b, c };
    match text.as_bytes() {
        [ind1, ind2] if !subfields.is_empty() => Ok(Field::Variable {
            tag,
            ind1: *ind1,
            ind2: *ind2,
            subs: subfields_of(alloc, subfields)?,
        }),
        _ => Ok(Field::Control {
            tag,
            text: Text::from_str(alloc, text)?,
        }),
    }
}

fn record_of(
    rt: &impl Abort,
    alloc: Global,
    leader: Leader,
    lines: &[Line],
) -> Result<Record, NoMemory> {
    let mut fields = Vec::with_capacity(alloc, lines.len())?;
    for line in lines {
        fields.push(field_of(alloc, line)?)?;
    }
    let fields = Fields::from_vec(fields);
    assert!(rt; makes_record(&leader, fields.as_slice()));
    Ok(Record { leader, fields })
}

const AUTHORITY: Leader = Leader {
    status: b'n',
    rtype: b'z',
    level: b' ',
    control: b' ',
    encoding: b'n',
    form: b' ',
    linked: b' ',
};

const BOOK: Leader = Leader {
    status: b'n',
    rtype: b'a',
    level: b'm',
    control: b' ',
    encoding: b' ',
    form: b'a',
    linked: b' ',
};

const AUTHORITY_LINES: [Line; 4] = [
    (b"001", "n79021164", &[]),
    (b"003", "DLC", &[]),
    (b"100", "1 ", &[(b'a', "Twain, Mark,"), (b'd', "1835-1910")]),
    (
        b"400",
        "1 ",
        &[(b'a', "Clemens, Samuel Langhorne,"), (b'd', "1835-1910")],
    ),
];

const BOOK_LINES: [Line; 3] = [
    (b"001", "b1", &[]),
    (
        b"100",
        "1 ",
        &[
            (b'a', "Twain, Mark,"),
            (b'd', "1835-1910"),
            (b'0', "(DLC)n79021164"),
            (b'e', "author."),
        ],
    ),
    (b"245", "10", &[(b'a', "Roughing it.")]),
];

const ACCENTED_LINES: [Line; 2] = [
    (b"001", "m1", &[]),
    (b"245", "00", &[(b'a', "Cafe\u{301}")]),
];

const AUTHORITY_BYTES: &[u8] = b"00158nz  a2200073n  4500\
001001000000003000400010100002800014400004200042\x1e\
n79021164\x1eDLC\x1e1 \x1faTwain, Mark,\x1fd1835-1910\x1e\
1 \x1faClemens, Samuel Langhorne,\x1fd1835-1910\x1e\x1d";

const BOOK_BYTES: &[u8] = b"00135nam a2200061 a 4500\
001000300000100005300003245001700056\x1e\
b1\x1e1 \x1faTwain, Mark,\x1fd1835-1910\x1f0(DLC)n79021164\x1feauthor.\x1e\
10\x1faRoughing it.\x1e\x1d";

const ACCENTED_BYTES: &[u8] = b"00064nam a2200049 a 4500\
001000300000245001100003\x1e\
m1\x1e00\x1faCafe\xcc\x81\x1e\x1d";

/// A leader, the fields, and the written record.
const RECORDS: [(Leader, &[Line], &[u8]); 3] = [
    (AUTHORITY, &AUTHORITY_LINES, AUTHORITY_BYTES),
    (BOOK, &BOOK_LINES, BOOK_BYTES),
    (BOOK, &ACCENTED_LINES, ACCENTED_BYTES),
];

fn len_of(rec: &Record) -> u64 {
    encoded_len(rec)
}

/// The record's bytes behind some that are there.
fn encoded_behind(
    rt: &impl Abort,
    alloc: Global,
    rec: &Record,
    mut out: Vec<u8>,
) -> Result<Vec<u8>, NoMemory> {
    assert!(rt; fits(rec));
    encode_into(alloc, rec, &mut out)?;
    Ok(out)
}

fn encoded(rt: &impl Abort, alloc: Global, rec: &Record) -> Result<Vec<u8>, NoMemory> {
    assert!(rt; fits(rec));
    spelled_once(rec, rec);
    Ok(encode_vec(alloc, rec)?.into_vec())
}

/// Whether a record is written so, also behind what is there.
fn is_written_as(
    rt: &impl Abort,
    alloc: Global,
    rec: &Record,
    bytes: &[u8],
) -> Result<bool, NoMemory> {
    let out = encoded(rt, alloc, rec)?;
    let is_as = len_of(rec) == bytes.len() as u64 && out.as_slice() == bytes;
    let twice = encoded_behind(rt, alloc, rec, out)?;
    Ok(is_as && twice.as_slice().strip_prefix(bytes) == Some(bytes))
}

#[test]
fn records_are_written_byte_for_byte(rt: HostRuntime) -> Result<(), Fail> {
    let alloc = rt.alloc();
    for (leader, lines, bytes) in &RECORDS {
        let rec = record_of(&rt, alloc, *leader, lines)?;
        assert!(rt; is_written_as(&rt, alloc, &rec, bytes)?);
    }
    Ok(())
}

/// A number of so many bytes.
fn long_number(alloc: Global, len: usize) -> Result<Fields, Fail> {
    let bytes = vec![in alloc; b'x'; len]?;
    let text = Text::from_string(String::from_utf8(bytes)?);
    let tag = Tag {
        a: b'0',
        b: b'0',
        c: b'1',
    };
    let fields = vec![in alloc; Field::Control { tag, text }]?;
    Ok(Fields::from_vec(fields))
}

fn long_number_fits(rt: &impl Abort, alloc: Global, len: usize) -> Result<bool, Fail> {
    let fields = long_number(alloc, len)?;
    assert!(rt; makes_record(&BOOK, fields.as_slice()));
    let rec = Record {
        leader: BOOK,
        fields,
    };
    Ok(fits(&rec))
}

#[test]
fn a_field_of_ten_thousand_bytes_does_not_fit(rt: HostRuntime) -> Result<(), Fail> {
    assert!(rt; long_number_fits(&rt, rt.alloc(), 9_998)?);
    assert!(rt; !long_number_fits(&rt, rt.alloc(), 9_999)?);
    Ok(())
}

/// Whether a record was written, and the bytes that were, where so many pieces are taken.
fn written_in_pieces(rt: &impl Abort, alloc: Global, rec: &Record, pieces: u64) -> (bool, Vec<u8>) {
    assert!(rt; fits(rec));
    let mut out = Short::new(alloc, pieces);
    let is_written = encode(rec, &mut out).is_ok();
    (is_written, out.bytes)
}

const FRONTS: [(u64, usize); 5] = [(0, 0), (1, 24), (4, 60), (6, 63), (100, 135)];

#[test]
fn a_front_is_written_before_a_fault(rt: HostRuntime) -> Result<(), Fail> {
    let alloc = rt.alloc();
    let rec = record_of(&rt, alloc, BOOK, &BOOK_LINES)?;
    for (pieces, len) in &FRONTS {
        let (is_written, bytes) = written_in_pieces(&rt, alloc, &rec, *pieces);
        assert_eq!(rt; is_written, *len == 135);
        assert!(rt; *len <= BOOK_BYTES.len());
        assert_eq!(rt; bytes.as_slice(), &BOOK_BYTES[..*len]);
    }
    Ok(())
}
