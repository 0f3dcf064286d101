ghost use Rattle.std.specs.Prelude.{◌≡◌, ◌<◌, length, slice_set, IfOk};

use iso2709_record::fits;
use marc_types::{
    Field, Fields, Leader, NoMemory, Record, Subfield, Subfields, Tag, Text, TryCopy, makes_record,
};
use std::alloc::Global;
use std::process::Abort;
use std::test::Fail;
use written_record::WrittenRecord;

const NUMBER: Tag = Tag {
    a: b'0',
    b: b'0',
    c: b'1',
};

const TITLE: Tag = Tag {
    a: b'2',
    b: b'4',
    c: b'5',
};

const BOOK: Leader = Leader {
    status: b'n',
    rtype: b'a',
    level: b'm',
    control: b' ',
    encoding: b' ',
    form: b'a',
    linked: b' ',
};

const BOOK_BYTES: &[u8] = b"00070nam a2200049 a 4500\
001000300000245001700003\x1e\
b1\x1e10\x1faRoughing it.\x1e\x1d";

const NUMBER_AREA: &[u8] = b"b1";

/// The same under a longer number, so the title starts later.
const RENUMBERED_BYTES: &[u8] = b"00073nam a2200049 a 4500\
001000600000245001700006\x1e\
book1\x1e10\x1faRoughing it.\x1e\x1d";

fn number(alloc: Global, text: &str) -> Result<Field, NoMemory> {
    Ok(Field::Control {
        tag: NUMBER,
        text: Text::from_str(alloc, text)?,
    })
}

fn title(alloc: Global) -> Result<Field, NoMemory> {
    let text = Text::from_str(alloc, "Roughing it.")?;
    let subs = vec![in alloc; Subfield { code: b'a', text }]?;
    Ok(Field::Variable {
        tag: TITLE,
        ind1: b'1',
        ind2: b'0',
        subs: Subfields::from_vec(subs),
    })
}

fn book(rt: &impl Abort, alloc: Global) -> Result<Record, NoMemory> {
    let (number, title) = (number(alloc, "b1")?, title(alloc)?);
    let fields = Fields::from_vec(vec![in alloc; number, title]?);
    assert!(rt; makes_record(&BOOK, fields.as_slice()));
    Ok(Record {
        leader: BOOK,
        fields,
    })
}

fn written(rt: &impl Abort, alloc: Global, rec: &Record) -> Result<WrittenRecord, NoMemory>
    ensures { IfOk result (λ made. made ≡ rec.now) }
{
    assert!(rt; fits(rec));
    WrittenRecord::of(alloc, rec)
}

#[test]
fn a_record_is_kept_as_its_bytes(rt: HostRuntime) -> Result<(), Fail> {
    let alloc = rt.alloc();
    let rec = book(&rt, alloc)?;
    let kept = written(&rt, alloc, &rec)?;
    assert!(rt; kept.as_bytes() == BOOK_BYTES);
    assert!(rt; kept.len() == 70);
    let other = kept.copy(alloc)?;
    assert!(rt; other.as_bytes() == BOOK_BYTES);
    let again = written(&rt, alloc, &other.to_record(alloc)?)?;
    assert!(rt; again.as_bytes() == BOOK_BYTES);
    Ok(())
}

#[test]
fn its_parts_are_read(rt: HostRuntime) -> Result<(), Fail> {
    let alloc = rt.alloc();
    let kept = written(&rt, alloc, &book(&rt, alloc)?)?;
    assert!(rt; kept.leader() == BOOK);
    assert!(rt; kept.field_count() == 2);
    assert!(rt; kept.tag_at(1) == Some(TITLE));
    assert!(rt; kept.tag_at(2).is_none());
    assert!(rt; kept.area_at(0) == Some(NUMBER_AREA));
    assert!(rt; kept.field_at(alloc, 1)? == Some(title(alloc)?));
    Ok(())
}

fn with_first(fields: Fields, field: Field) -> Fields
    requires { 0 < length fields }
    ensures { result ≡ slice_set fields 0 field }
{
    let mut items = fields.into_vec();
    items[0] = field;
    Fields::from_vec(items)
}

/// The record with another first field.
fn changed(
    rt: &impl Abort,
    alloc: Global,
    rec: &Record,
    field: &Field,
) -> Result<WrittenRecord, NoMemory> {
    let kept = written(rt, alloc, rec)?;
    assert!(rt; !rec.fields.as_slice().is_empty());
    let fields = with_first(rec.fields.copy(alloc)?, field.copy(alloc)?);
    assert!(rt; makes_record(&rec.leader, fields.as_slice()));
    let leader = rec.leader;
    assert!(rt; fits(&Record { leader, fields }));
    kept.with_field(alloc, 0, field)
}

#[test]
fn another_field_moves_those_behind_it(rt: HostRuntime) -> Result<(), Fail> {
    let alloc = rt.alloc();
    let rec = book(&rt, alloc)?;
    let made = changed(&rt, alloc, &rec, &number(alloc, "book1")?)?;
    assert!(rt; made.as_bytes() == RENUMBERED_BYTES);
    Ok(())
}
