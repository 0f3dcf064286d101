use super::pieces::read;
use field_settling::{Heading, Held, await_key, end_link, governing, link_to};
use marc_types::{
    Class, Field, Key, Kind, NoMemory, Record, Subfield, Subfields, Tag, Text, Tie, TiedKey,
};
use std::alloc::Global;
use std::test::Fail;

type Pieces = &'static [(u8, &'static str)];

const CAPITALS: Pieces = &[(b'a', "WOMEN"), (b'z', "France")];

const LINKED: Pieces = &[(b'a', "Women"), (b'0', "(DLC)sh4"), (b'z', "France")];

const UNLINKED: Pieces = &[(b'a', "Women"), (b'z', "France")];

const WOMEN: Pieces = &[(b'a', "Women")];

// A field of a tag and of pieces of code and text.
fn field(alloc: Global, name: &[u8; 3], pieces: Pieces) -> Result<Field, NoMemory> {
    let mut subs = Vec::new(alloc);
    for (code, text) in pieces {
        let text = Text::from_str(alloc, text)?;
        subs.push(Subfield { code: *code, text })?;
    }
    Ok(Field::Variable {
        tag: Tag {
            a: name[0],
            b: name[1],
            c: name[2],
        },
        ind1: b' ',
        ind2: b'0',
        subs: Subfields::from_vec(subs),
    })
}

fn key(alloc: Global, number: &str) -> Result<Key, NoMemory> {
    let code = Text::from_str(alloc, "DLC")?;
    let number = Text::from_str(alloc, number)?;
    Ok(Key { code, number })
}

fn tied(alloc: Global, number: &str) -> Result<Option<TiedKey>, NoMemory> {
    if number.is_empty() {
        return Ok(None);
    }
    Ok(Some(TiedKey::new(alloc, key(alloc, number)?)?))
}

// The tie of a field that is linked by its base, or awaits a key, each told by its number, if any.
fn tie(alloc: Global, number: &str, awaits: &str) -> Result<Tie, NoMemory> {
    let key = tied(alloc, number)?;
    let awaits = tied(alloc, awaits)?;
    Ok(Tie {
        key,
        whole: false,
        awaits,
    })
}

// Whether a subject of these pieces is held, with that tie.
fn is_held(
    alloc: Global,
    held: &Held,
    pieces: Pieces,
    number: &str,
    awaits: &str,
) -> Result<bool, NoMemory> {
    let field = field(alloc, b"650", pieces)?;
    let tie = tie(alloc, number, awaits)?;
    Ok(held.is(&field, &tie))
}

// A subject that is linked to a heading by its base.
fn linked(alloc: Global, pieces: Pieces, heading: &Field) -> Result<Held, NoMemory> {
    let subject = field(alloc, b"650", pieces)?;
    let key = key(alloc, "sh4")?;
    let heading = Heading {
        kind: Kind::Topical,
        field: heading,
    };
    link_to(alloc, &key, heading, Class::Bibliographic, &subject, false)
}

fn linked_to_women(alloc: Global, pieces: Pieces) -> Result<Held, NoMemory> {
    let women = field(alloc, b"150", WOMEN)?;
    linked(alloc, pieces, &women)
}

// The subject, whose link ends in favour of a successor.
fn ended(alloc: Global, held: &Held) -> Result<Held, NoMemory> {
    let old = key(alloc, "sh4")?;
    let new = key(alloc, "sh5")?;
    end_link(alloc, &held.field, &held.tie, &old, Some(&new))
}

fn awaiting(alloc: Global, held: &Held) -> Result<Held, NoMemory> {
    let key = key(alloc, "sh4")?;
    await_key(alloc, &held.field, &held.tie, &key)
}

// Whether a field that awaits one key stays as it is, where it is to await another.
fn awaits_another(alloc: Global, held: &Held) -> Result<bool, NoMemory> {
    let handed = awaiting(alloc, held)?;
    is_held(alloc, &handed, UNLINKED, "", "sh4")
}

// Whether the link of a field ends, and the field awaits the successor.
fn ends(alloc: Global, held: &Held) -> Result<bool, NoMemory> {
    let ended = ended(alloc, held)?;
    Ok(is_held(alloc, &ended, UNLINKED, "", "sh5")? && awaits_another(alloc, &ended)?)
}

/// A subject is linked by its base, and its link ends.
#[test]
fn a_link_is_made_and_ends(rt: HostRuntime) -> Result<(), Fail> {
    let held = linked_to_women(rt.alloc(), CAPITALS)?;
    assert!(rt; is_held(rt.alloc(), &held, LINKED, "sh4", "")?);
    assert!(rt; ends(rt.alloc(), &held)?);
    Ok(())
}

// A tracing before a heading.
const TRACED: &[u8] =
    b"00072nz  a2200049   4500450001200000150001000012\x1e 0\x1faFemales\x1e 0\x1faWomen\x1e\x1d";

// Whether the heading of a record is of that kind and of these pieces.
fn governs(alloc: Global, rec: &Record, kind: Kind, pieces: Pieces) -> Result<bool, NoMemory> {
    let field = field(alloc, b"150", pieces)?;
    Ok(match governing(rec) {
        Some(heading) => heading.kind == kind && *heading.field == field,
        None => false,
    })
}

/// The first 1XX of a record governs, with the kind of its tag.
#[test]
fn a_heading_governs(rt: HostRuntime) -> Result<(), Fail> {
    let rec = read(rt.alloc(), TRACED)?;
    assert!(rt; governs(rt.alloc(), &rec, Kind::Topical, WOMEN)?);
    Ok(())
}
