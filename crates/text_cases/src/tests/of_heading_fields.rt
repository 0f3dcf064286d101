ghost use Rattle.std.specs.Prelude.{◌≤◌, length, IfOk};
ghost use Rattle.marc_types.specs.Valid.{field_size};

use super::steps::expect_at;
use heading_fields::{
    authority_kind, controlled, full, has_subdivision, heading_kind, heading_len,
    is_controlled_code, names, rewrite, takes_subdivisions, unlink,
};
use marc_types::{Class, Field, Key, Kind, NoMemory, Subfield, Subfields, Tag, Text};
use std::alloc::Global;
use std::process::Abort;
use std::test::Fail;

/// A kind, its tags in authority and in bibliographic records, and its controlled codes.
struct Row {
    kind: Kind,
    authority: &'static str,
    bibliographic: &'static str,
    codes: &'static str,
}

const TABLE: [Row; 8] = [
    Row {
        kind: Kind::Personal,
        authority: "100 400 500",
        bibliographic: "100 600 700 800",
        codes: "a b c d f g k l m n o p q r s t",
    },
    Row {
        kind: Kind::Corporate,
        authority: "110 410 510",
        bibliographic: "110 610 710 810",
        codes: "a b c d f g k l m n o p r s t",
    },
    Row {
        kind: Kind::Meeting,
        authority: "111 411 511",
        bibliographic: "111 611 711 811",
        codes: "a c d e f g k l n p q s t",
    },
    Row {
        kind: Kind::Title,
        authority: "130 430 530",
        bibliographic: "130 630 730 830",
        codes: "a d f g k l m n o p r s t",
    },
    Row {
        kind: Kind::Chronological,
        authority: "148 448 548",
        bibliographic: "648",
        codes: "a",
    },
    Row {
        kind: Kind::Topical,
        authority: "150 450 550",
        bibliographic: "650",
        codes: "a b",
    },
    Row {
        kind: Kind::Geographic,
        authority: "151 451 551",
        bibliographic: "651",
        codes: "a",
    },
    Row {
        kind: Kind::Genre,
        authority: "155 455 555",
        bibliographic: "655",
        codes: "a",
    },
];

/// Whether a tag stands in a list of tags.
fn lists(tags: &str, tag: Tag) -> bool {
    let wanted = [tag.a, tag.b, tag.c];
    tags.as_bytes()
        .chunks(4)
        .any(|listed| listed.starts_with(&wanted))
}

/// The kind of a tag in the table's column for a class.
fn listed_kind(tag: Tag, class: Class) -> Option<Kind> {
    for row in &TABLE {
        let column = match class {
            Class::Authority => row.authority,
            Class::Bibliographic => row.bibliographic,
        };
        if lists(column, tag) {
            return Some(row.kind);
        }
    }
    None
}

fn bare_field(tag: Tag, ind2: u8, alloc: Global) -> Field {
    Field::Variable {
        tag,
        ind1: b' ',
        ind2,
        subs: Subfields::from_vec(Vec::new(alloc)),
    }
}

/// The tag of three digits.
fn digits(number: u32) -> Tag {
    Tag {
        a: b'0' + (number / 100 % 10) as u8,
        b: b'0' + (number / 10 % 10) as u8,
        c: b'0' + (number % 10) as u8,
    }
}

// Each behind a function without a clause, since the clauses of what it calls would be unfolded at each later goal.
fn bare_kind(tag: Tag, ind2: u8, class: Class, alloc: Global) -> Option<Kind> {
    heading_kind(&bare_field(tag, ind2, alloc), class)
}

fn first_kind(tag: Tag) -> Option<Kind> {
    authority_kind(&tag)
}

fn divides(tag: Tag, class: Class) -> bool {
    takes_subdivisions(&tag, class)
}

fn is_controlled(code: u8, kind: Kind) -> bool {
    is_controlled_code(code, kind)
}

/// Whether a tag has the kinds that the table has for authorities: a 1XX or 4XX its own, and a 5XX that of its link.
fn is_as_in_authorities(tag: Tag, alloc: Global) -> bool {
    let listed = listed_kind(tag, Class::Authority);
    let first = if tag.a == b'5' { None } else { listed };
    let linked = if tag.a == b'5' { listed } else { None };
    first_kind(tag) == first
        && bare_kind(tag, b'0', Class::Authority, alloc) == linked
        && bare_kind(tag, b'1', Class::Authority, alloc) == linked
}

/// Whether a tag has the kind that the table has for bibliographic records; a 6XX by its second indicator.
fn is_as_in_books(tag: Tag, alloc: Global) -> bool {
    let listed = listed_kind(tag, Class::Bibliographic);
    let other = if tag.a == b'6' { None } else { listed };
    bare_kind(tag, b'0', Class::Bibliographic, alloc) == listed
        && bare_kind(tag, b'1', Class::Bibliographic, alloc) == other
}

fn is_divided_as_wanted(tag: Tag) -> bool {
    divides(tag, Class::Authority) == matches!(tag.a, b'1' | b'4' | b'5')
        && divides(tag, Class::Bibliographic) == (tag.a == b'6')
}

#[test]
fn the_tables_of_tags(rt: HostRuntime) {
    for number in 0..1000 {
        let tag = digits(number);
        expect_at(&rt, is_as_in_authorities(tag, rt.alloc()), number);
        expect_at(&rt, is_as_in_books(tag, rt.alloc()), number);
        expect_at(&rt, is_divided_as_wanted(tag), number);
    }
}

fn is_listed_code(code: u8, row: &Row) -> bool {
    code != b' ' && row.codes.as_bytes().contains(&code)
}

#[test]
fn the_table_of_codes(rt: HostRuntime) {
    for row in &TABLE {
        for code in 0..128u8 {
            let is_as_listed = is_controlled(code, row.kind) == is_listed_code(code, row);
            expect_at(&rt, is_as_listed, u32::from(code));
        }
    }
}

type Pieces = &'static [(u8, &'static str)];

fn tag(name: &[u8; 3]) -> Tag {
    Tag {
        a: name[0],
        b: name[1],
        c: name[2],
    }
}

/// A field: its tag, its indicators, and its pieces of code and text.
type Line = (&'static [u8; 3], &'static [u8; 2], Pieces);

fn field(alloc: Global, line: &Line) -> Result<Field, NoMemory> {
    let (name, indicators, pieces) = *line;
    Ok(Field::Variable {
        tag: tag(name),
        ind1: indicators[0],
        ind2: indicators[1],
        subs: subfields(alloc, pieces)?,
    })
}

fn subfields(alloc: Global, pieces: Pieces) -> Result<Subfields, NoMemory> {
    let mut subs = Vec::new(alloc);
    for (code, text) in pieces {
        let text = Text::from_str(alloc, text)?;
        subs.push(Subfield { code: *code, text })?;
    }
    Ok(Subfields::from_vec(subs))
}

fn key(alloc: Global, number: &str) -> Result<Key, NoMemory> {
    let code = Text::from_str(alloc, "DLC")?;
    let number = Text::from_str(alloc, number)?;
    Ok(Key { code, number })
}

/// A field that is rewritten by a heading and its key's number, whole or by the base, and what it comes to.
struct Rewriting {
    kind: Kind,
    class: Class,
    heading: Line,
    number: &'static str,
    whole: bool,
    before: Line,
    after: Line,
}

fn rewritten(alloc: Global, row: &Rewriting) -> Result<Field, NoMemory> {
    let key = key(alloc, row.number)?;
    let heading = field(alloc, &row.heading)?;
    let before = field(alloc, &row.before)?;
    rewrite(
        alloc, &before, row.kind, row.class, &heading, &key, row.whole,
    )
}

fn is_field(alloc: Global, made: &Field, wanted: &Line) -> Result<bool, NoMemory> {
    let wanted = field(alloc, wanted)?;
    Ok(*made == wanted)
}

fn comes_to(alloc: Global, row: &Rewriting) -> Result<bool, NoMemory> {
    let made = rewritten(alloc, row)?;
    is_field(alloc, &made, &row.after)
}

fn has_number(alloc: Global, line: &Line, number: &str) -> Result<bool, NoMemory> {
    let field = field(alloc, line)?;
    let key = key(alloc, number)?;
    Ok(names(&field, &key))
}

const TWAIN: Line = (
    b"100",
    b"1 ",
    &[(b'a', "Twain, Mark,"), (b'd', "1835-1910")],
);

const VARIANT: Line = (
    b"100",
    b"0 ",
    &[
        (b'a', "Clemens, Samuel Langhorne,"),
        (b'd', "1835-1910,"),
        (b'e', "author."),
    ],
);

const REWRITTEN: Line = (
    b"100",
    b"1 ",
    &[
        (b'a', "Twain, Mark,"),
        (b'd', "1835-1910"),
        (b'0', "(DLC)n79021164"),
        (b'e', "author."),
    ],
);

const NUMBERED: Line = (
    b"700",
    b"1 ",
    &[
        (b'a', "Twayne, M."),
        (b'0', "(DLC)n 79021164"),
        (b'0', "(ULIB)7"),
    ],
);

const NAMED: Line = (
    b"700",
    b"1 ",
    &[
        (b'a', "Twain, Mark,"),
        (b'd', "1835-1910"),
        (b'0', "(DLC)n79021164"),
        (b'0', "(ULIB)7"),
    ],
);

/// A personal name is taken over with what follows it, and the number; also once more.
const NAMES: [Rewriting; 3] = [
    Rewriting {
        kind: Kind::Personal,
        class: Class::Bibliographic,
        heading: TWAIN,
        number: "n79021164",
        whole: false,
        before: VARIANT,
        after: REWRITTEN,
    },
    Rewriting {
        kind: Kind::Personal,
        class: Class::Bibliographic,
        heading: TWAIN,
        number: "n79021164",
        whole: false,
        before: REWRITTEN,
        after: REWRITTEN,
    },
    Rewriting {
        kind: Kind::Personal,
        class: Class::Bibliographic,
        heading: TWAIN,
        number: "n79021164",
        whole: false,
        before: NUMBERED,
        after: NAMED,
    },
];

const WOMEN: Line = (b"150", b"  ", &[(b'a', "Women")]);

const LINKED: Line = (
    b"650",
    b" 0",
    &[(b'a', "Women"), (b'0', "(DLC)sh4"), (b'z', "France")],
);

const UNLINKED: Line = (b"650", b" 0", &[(b'a', "Women"), (b'z', "France")]);

/// Subjects with and without subdivisions, rewritten whole and by the base.
const SUBJECTS: [Rewriting; 4] = [
    Rewriting {
        kind: Kind::Topical,
        class: Class::Bibliographic,
        heading: (b"150", b"  ", &[(b'a', "Motion pictures")]),
        number: "sh1",
        whole: false,
        before: (
            b"650",
            b" 0",
            &[
                (b'a', "Moving-pictures"),
                (b'0', "(DLC)sh1"),
                (b'z', "France"),
            ],
        ),
        after: (
            b"650",
            b" 0",
            &[
                (b'a', "Motion pictures"),
                (b'0', "(DLC)sh1"),
                (b'z', "France"),
            ],
        ),
    },
    Rewriting {
        kind: Kind::Topical,
        class: Class::Authority,
        heading: (b"150", b"  ", &[(b'a', "Motion pictures")]),
        number: "sh1",
        whole: true,
        before: (
            b"550",
            b"  ",
            &[(b'w', "g"), (b'a', "Moving-pictures"), (b'0', "(DLC)sh1")],
        ),
        after: (
            b"550",
            b"  ",
            &[(b'w', "g"), (b'a', "Motion pictures"), (b'0', "(DLC)sh1")],
        ),
    },
    Rewriting {
        kind: Kind::Topical,
        class: Class::Bibliographic,
        heading: WOMEN,
        number: "sh4",
        whole: false,
        before: (b"650", b" 0", &[(b'a', "WOMEN"), (b'z', "France")]),
        after: LINKED,
    },
    Rewriting {
        kind: Kind::Topical,
        class: Class::Bibliographic,
        heading: (b"150", b"  ", &[(b'a', "Females")]),
        number: "sh3",
        whole: true,
        before: (
            b"650",
            b" 0",
            &[(b'a', "Women"), (b'x', "History"), (b'0', "(DLC)sh3")],
        ),
        after: (b"650", b" 0", &[(b'a', "Females"), (b'0', "(DLC)sh3")]),
    },
];

fn come_to(rt: &impl Abort, alloc: Global, rows: &[Rewriting]) -> Result<(), NoMemory> {
    for row in rows {
        assert!(rt; comes_to(alloc, row)?);
    }
    Ok(())
}

#[test]
fn headings_are_rewritten(rt: HostRuntime) -> Result<(), Fail> {
    come_to(&rt, rt.alloc(), &NAMES)?;
    come_to(&rt, rt.alloc(), &SUBJECTS)?;
    Ok(())
}

fn unlinked(alloc: Global, line: &Line, number: &str) -> Result<Field, NoMemory> {
    let field = field(alloc, line)?;
    let key = key(alloc, number)?;
    unlink(alloc, &field, &key)
}

#[test]
fn a_subject_is_unlinked(rt: HostRuntime) -> Result<(), Fail> {
    let made = unlinked(rt.alloc(), &LINKED, "sh4")?;
    assert!(rt; is_field(rt.alloc(), &made, &UNLINKED)?);
    Ok(())
}

#[test]
fn fields_name_keys(rt: HostRuntime) -> Result<(), Fail> {
    assert!(rt; has_number(rt.alloc(), &NUMBERED, "n79021164")?);
    assert!(rt; !has_number(rt.alloc(), &VARIANT, "n79021164")?);
    assert!(rt; !has_number(rt.alloc(), &UNLINKED, "sh4")?);
    Ok(())
}

/// A name in two parts.
const PARTED: Line = (
    b"100",
    b"1 ",
    &[
        (b'e', "author"),
        (b'a', "Twain, Mark,"),
        (b'x', "Plays"),
        (b't', "Works"),
        (b'v', "Index"),
    ],
);

const BASE: Pieces = &[(b'a', "Twain, Mark,")];

const WHOLE: Pieces = &[
    (b'a', "Twain, Mark,"),
    (b'x', "Plays"),
    (b't', "Works"),
    (b'v', "Index"),
];

fn has_base(alloc: Global) -> Result<bool, NoMemory> {
    let parted = field(alloc, &PARTED)?;
    let base = controlled(alloc, &parted, Kind::Personal)?;
    are_subfields(alloc, &base, BASE)
}

fn has_full(alloc: Global, class: Class, wanted: Pieces) -> Result<bool, NoMemory> {
    let parted = field(alloc, &PARTED)?;
    let made = full(alloc, &parted, Kind::Personal, class)?;
    are_subfields(alloc, &made, wanted)
}

fn are_subfields(alloc: Global, made: &Subfields, wanted: Pieces) -> Result<bool, NoMemory> {
    let wanted = subfields(alloc, wanted)?;
    Ok(*made == wanted)
}

fn is_divided(alloc: Global, line: &Line) -> Result<bool, NoMemory> {
    let field = field(alloc, line)?;
    Ok(has_subdivision(&field))
}

#[test]
fn parts_of_a_heading(rt: HostRuntime) -> Result<(), Fail> {
    let alloc = rt.alloc();
    assert!(rt; has_base(alloc)?);
    assert!(rt; has_full(alloc, Class::Bibliographic, BASE)?);
    assert!(rt; has_full(alloc, Class::Authority, WHOLE)?);
    assert!(rt; is_divided(alloc, &PARTED)?);
    Ok(())
}

#[test]
fn lengths_of_headings(rt: HostRuntime) -> Result<(), Fail> {
    assert_eq!(rt; title_len(rt.alloc(), b'a', "Roughing it.")?, 14);
    assert_eq!(rt; title_len(rt.alloc(), b'x', "Plays")?, 0);
    Ok(())
}

fn title_len(alloc: Global, code: u8, text: &str) -> Result<u64, NoMemory>
    requires { length text.now ≤ 100 }
{
    let title = short_title(alloc, code, text)?;
    Ok(heading_len(&title, Kind::Title))
}

#[tactic(auto, unfolding(marc_types::specs::Valid::field_size))]
fn short_title(alloc: Global, code: u8, text: &str) -> Result<Field, NoMemory>
    requires { length text.now ≤ 100 }
    ensures { IfOk result (λ made. field_size made ≤ 1000000) }
{
    let text = Text::from_str(alloc, text)?;
    let subs = Vec::from_array(alloc, [Subfield { code, text }])?;
    Ok(Field::Variable {
        tag: tag(b"730"),
        ind1: b'0',
        ind2: b' ',
        subs: Subfields::from_vec(subs),
    })
}
