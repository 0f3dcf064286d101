use super::steps::expect;
use iso2709_record::{Layout, RawField, check, decode, first_subfield};
use marc_types::{Leader, Refusal, Tag};
use std::alloc::Global;
use std::process::Abort;
use std::test::Fail;

/// An authority of 158 bytes: the base address is 73, and the areas stand at 73, 83, 87 and 115.
const AUTHORITY: &[u8; 158] = b"00158nz  a2200073n  4500\
001001000000003000400010100002800014400004200042\x1e\
n79021164\x1eDLC\x1e1 \x1faTwain, Mark,\x1fd1835-1910\x1e\
1 \x1faClemens, Samuel Langhorne,\x1fd1835-1910\x1e\x1d";

const BOOK: &[u8] = b"00134nam a2200061 a 4500\
001000300000100005200003245001700055\x1e\
b1\x1e1 \x1faClemens, Samuel Langhorne,\x1fd1835-1910,\x1feauthor.\x1e\
10\x1faRoughing it.\x1e\x1d";

const MARC8: &[u8] = b"00063nam  2200049 a 4500\
001000300000245001000003\x1e\
m1\x1e00\x1faCaf\xe2\x65\x1e\x1d";

const SOUND: Result<Layout, Refusal> = Ok(Layout {
    base: 73,
    entries: 4,
});

/// What is changed, where to which byte, and the answer.
type Change = (
    &'static str,
    &'static [(usize, u8)],
    Result<Layout, Refusal>,
);

const CHANGES: [Change; 27] = [
    ("nothing", &[], SOUND),
    ("length 00157", &[(4, b'7')], Err(Refusal::BadLength)),
    ("length 0015x", &[(4, b'x')], Err(Refusal::BadLength)),
    (
        "an earlier record terminator",
        &[(80, 0x1d)],
        Err(Refusal::BadLength),
    ),
    (
        "no record terminator",
        &[(157, 0x1e)],
        Err(Refusal::BadLength),
    ),
    ("leader 05 is 7F", &[(5, 0x7f)], Err(Refusal::BadLeader)),
    ("leader 19 is 1F", &[(19, 0x1f)], Err(Refusal::BadLeader)),
    ("base address 0007x", &[(16, b'x')], Err(Refusal::BadLeader)),
    (
        "base address 00024",
        &[(15, b'2'), (16, b'4')],
        Err(Refusal::BadLeader),
    ),
    ("base address 00173", &[(14, b'1')], Err(Refusal::BadLeader)),
    (
        "base address 00074",
        &[(16, b'4')],
        Err(Refusal::BadDirectory(4)),
    ),
    (
        "no field terminator behind the directory",
        &[(72, b'x')],
        Err(Refusal::BadDirectory(4)),
    ),
    (
        "tag of entry 1 is 0-3",
        &[(37, b'-')],
        Err(Refusal::BadDirectory(1)),
    ),
    (
        "length of entry 3 is x042",
        &[(63, b'x')],
        Err(Refusal::BadDirectory(3)),
    ),
    (
        "length of entry 0 is 0000",
        &[(29, b'0')],
        Err(Refusal::BadField(0)),
    ),
    (
        "length of entry 2 is 0029",
        &[(54, b'9')],
        Err(Refusal::BadField(2)),
    ),
    (
        "start of entry 1 is 00000",
        &[(46, b'0')],
        Err(Refusal::BadField(1)),
    ),
    (
        "entry 3 ends at the record terminator",
        &[(66, b'3')],
        Err(Refusal::BadField(3)),
    ),
    (
        "entry 1 is entry 0 again",
        &[(41, b'1'), (42, b'0'), (46, b'0')],
        Err(Refusal::BadField(3)),
    ),
    (
        "no field terminator behind entry 0",
        &[(82, b'x')],
        Err(Refusal::BadField(0)),
    ),
    (
        "a field terminator within entry 0",
        &[(75, 0x1e)],
        Err(Refusal::BadField(0)),
    ),
    (
        "a delimiter in a control field",
        &[(84, 0x1f)],
        Err(Refusal::BadField(1)),
    ),
    (
        "an indicator is a delimiter",
        &[(88, 0x1f)],
        Err(Refusal::BadField(2)),
    ),
    (
        "no delimiter behind the indicators",
        &[(89, b'x')],
        Err(Refusal::BadField(2)),
    ),
    (
        "a code is a blank",
        &[(90, b' ')],
        Err(Refusal::BadField(2)),
    ),
    (
        "a delimiter at the end",
        &[(155, 0x1f)],
        Err(Refusal::BadField(3)),
    ),
    ("leader 09 is b", &[(9, b'b')], SOUND),
];

/// The authority with these bytes at these places.
fn changed(rt: &impl Abort, places: &[(usize, u8)]) -> [u8; 158] {
    let mut bytes = *AUTHORITY;
    for (place, byte) in places {
        assert!(rt; *place < 158);
        bytes[*place] = *byte;
    }
    bytes
}

// Behind a function without a clause, since the clauses of `check` would be unfolded at each later goal.
fn is_answer(bytes: &[u8], answer: &Result<Layout, Refusal>) -> bool {
    check(bytes) == *answer
}

#[test]
fn the_first_fault_is_the_answer(rt: HostRuntime) {
    for (change, places, answer) in &CHANGES {
        expect(&rt, is_answer(&changed(&rt, places), answer), change);
    }
}

#[test]
fn a_length_is_that_of_the_piece(rt: HostRuntime) {
    assert!(rt; is_answer(&AUTHORITY[..100], &Err(Refusal::BadLength)));
    assert!(rt; is_answer(&[0x1d], &Err(Refusal::BadLength)));
    assert!(rt; is_answer(&[], &Err(Refusal::BadLength)));
}

const AUTHORITY_LEADER: Leader = Leader {
    status: b'n',
    rtype: b'z',
    level: b' ',
    control: b' ',
    encoding: b'n',
    form: b' ',
    linked: b' ',
};

const BOOK_LEADER: Leader = Leader {
    status: b'n',
    rtype: b'a',
    level: b'm',
    control: b' ',
    encoding: b' ',
    form: b'a',
    linked: b' ',
};

/// The bytes of a record, its leader, its coding, and its fields by tag and area.
type Decoded = (
    &'static [u8],
    Leader,
    u8,
    &'static [(&'static [u8; 3], &'static [u8])],
);

const RECORDS: [Decoded; 3] = [
    (
        AUTHORITY,
        AUTHORITY_LEADER,
        b'a',
        &[
            (b"001", b"n79021164"),
            (b"003", b"DLC"),
            (b"100", b"1 \x1faTwain, Mark,\x1fd1835-1910"),
            (b"400", b"1 \x1faClemens, Samuel Langhorne,\x1fd1835-1910"),
        ],
    ),
    (
        BOOK,
        BOOK_LEADER,
        b'a',
        &[
            (b"001", b"b1"),
            (
                b"100",
                b"1 \x1faClemens, Samuel Langhorne,\x1fd1835-1910,\x1feauthor.",
            ),
            (b"245", b"10\x1faRoughing it."),
        ],
    ),
    (
        MARC8,
        BOOK_LEADER,
        b' ',
        &[(b"001", b"m1"), (b"245", b"00\x1faCaf\xe2\x65")],
    ),
];

/// Whether fields have these tags and areas.
fn are_fields(fields: &[RawField], wanted: &[(&[u8; 3], &[u8])]) -> bool {
    fields.len() == wanted.len() && fields.iter().zip(wanted).all(is_field)
}

fn is_field((field, (tag, area)): (&RawField, &(&[u8; 3], &[u8]))) -> bool {
    let [a, b, c] = **tag;
    field.tag == Tag { a, b, c } && field.area.as_slice() == *area
}

fn is_decoded(alloc: Global, record: &Decoded) -> bool {
    let (bytes, leader, coding, fields) = *record;
    let Ok(raw) = decode(alloc, bytes) else {
        return false;
    };
    raw.leader == leader && raw.coding == coding && are_fields(raw.fields.as_slice(), fields)
}

#[test]
fn records_are_decoded(rt: HostRuntime) {
    for record in &RECORDS {
        assert!(rt; is_decoded(rt.alloc(), record));
    }
}

/// The code and the text of the first subfield, and what stands behind it.
fn first_cut(bytes: &[u8]) -> Option<(u8, &[u8], &[u8])> {
    let cut = first_subfield(bytes)?;
    Some((cut.code, cut.text, cut.rest))
}

const CUTS: [(u8, &[u8]); 3] = [
    (b'a', b"Twain, Mark,"),
    (b'd', b""),
    (b'0', b"(DLC)n79021164"),
];

#[test]
fn subfields_are_cut_off(rt: HostRuntime) {
    let mut rest: &[u8] = b"\x1faTwain, Mark,\x1fd\x1f0(DLC)n79021164";
    for (code, text) in &CUTS {
        let Some((found, cut, behind)) = first_cut(rest) else {
            panic!(rt; "no subfield is left")
        };
        assert_eq!(rt; found, *code);
        assert_eq!(rt; cut, *text);
        rest = behind;
    }
    assert!(rt; first_cut(rest).is_none());
}
