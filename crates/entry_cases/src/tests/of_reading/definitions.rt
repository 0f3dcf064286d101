//! What the definitions give for some records, to be read by eye.

use crate::tests::pieces::{TWAIN, prepared};
use entry_record::{Preparation, Prepared};
use marc_types::{Class, Form, Item, Key, Kind, RecordFault, TryCopy};
use std::alloc::Global;
use std::process::Abort;
use std::test::Fail;

/// A form: its kind, and its items' codes and texts.
type Formed = (Kind, &'static [(u8, &'static str)]);

/// What a record comes to. A field but the second has no form.
struct Meaning {
    class: Class,
    key: (&'static str, &'static str),
    size: u64,
    deletes: bool,
    established: &'static [Formed],
    see_from: &'static [Formed],
    successor: Option<(&'static str, &'static str)>,
    base: &'static [Formed],
    full: &'static [Formed],
}

const CLEMENS: Formed = (
    Kind::Personal,
    &[(b'a', "clemens, samuel langhorne"), (b'd', "1835 1910")],
);

const HISTORY: Formed = (Kind::Topical, &[(b'a', "women"), (b'x', "history")]);

const ROUGHING_IT: &[u8] =
    b"00134nam a2200061 a 4500001000300000100005200003245001700055\x1eb1\x1e1 \x1faClemens, Samuel Langhorne,\x1fd1835-1910,\x1feauthor.\x1e10\x1faRoughing it.\x1e\x1d";

const WOMEN: &[u8] =
    b"00089nz  a2200061n  4500001000400000003000400004150001900008\x1esh3\x1eDLC\x1e  \x1faWomen\x1fxHistory\x1e\x1d";

const OF_WOMEN: &[u8] =
    b"00073nam a2200049 a 4500001000400000650001900004\x1eb10\x1e 0\x1faWomen\x1fxHistory\x1e\x1d";

const REPLACED: &[u8] =
    b"00094xz  a2200061n  4500001000300000003000400003682002500007\x1en5\x1eDLC\x1e  \x1fiReplaced by\x1f0(DLC)n7\x1e\x1d";

const RECORDS: [(&[u8], Meaning); 5] = [
    (
        TWAIN,
        Meaning {
            class: Class::Authority,
            key: ("DLC", "n79021164"),
            size: 170,
            deletes: false,
            established: &[(
                Kind::Personal,
                &[(b'a', "twain, mark"), (b'd', "1835 1910")],
            )],
            see_from: &[CLEMENS],
            successor: None,
            base: &[],
            full: &[],
        },
    ),
    (
        ROUGHING_IT,
        Meaning {
            class: Class::Bibliographic,
            key: ("ULIB", "b1"),
            size: 146,
            deletes: false,
            established: &[],
            see_from: &[],
            successor: None,
            base: &[CLEMENS],
            full: &[CLEMENS],
        },
    ),
    (
        WOMEN,
        Meaning {
            class: Class::Authority,
            key: ("DLC", "sh3"),
            size: 101,
            deletes: false,
            established: &[HISTORY],
            see_from: &[],
            successor: None,
            base: &[],
            full: &[],
        },
    ),
    (
        OF_WOMEN,
        Meaning {
            class: Class::Bibliographic,
            key: ("ULIB", "b10"),
            size: 85,
            deletes: false,
            established: &[],
            see_from: &[],
            successor: None,
            base: &[(Kind::Topical, &[(b'a', "women")])],
            full: &[HISTORY],
        },
    ),
    (
        REPLACED,
        Meaning {
            class: Class::Authority,
            key: ("DLC", "n5"),
            size: 106,
            deletes: true,
            established: &[],
            see_from: &[],
            successor: Some(("DLC", "n7")),
            base: &[],
            full: &[],
        },
    ),
];

fn is_item((item, (code, text)): (&Item, &(u8, &str))) -> bool {
    item.code == *code && item.text.as_str() == *text
}

fn is_form((form, (kind, wanted)): (&Form, &Formed)) -> bool {
    let items = form.items.as_slice();
    form.kind == *kind && items.len() == wanted.len() && items.iter().zip(*wanted).all(is_item)
}

fn are_forms(forms: &[Form], wanted: &[Formed]) -> bool {
    forms.len() == wanted.len() && forms.iter().zip(wanted).all(is_form)
}

fn is_at_most(form: Option<&Form>, wanted: &[Formed]) -> bool {
    match (form, wanted) {
        (Some(form), [wanted]) => is_form((form, wanted)),
        (None, []) => true,
        _ => false,
    }
}

fn parts_of(key: &Key) -> (&str, &str) {
    (key.code.as_str(), key.number.as_str())
}

fn is_entry(made: &Prepared, meaning: &Meaning) -> bool {
    let entry = made.entry();
    entry.class == meaning.class
        && parts_of(&entry.key) == meaning.key
        && made.size() == meaning.size
}

fn is_authority(made: &Preparation, meaning: &Meaning) -> bool {
    made.is_deletion() == meaning.deletes
        && is_at_most(made.established(), meaning.established)
        && are_forms(made.see_from().as_slice(), meaning.see_from)
        && made.successor().map(parts_of) == meaning.successor
}

fn has_forms(made: &Preparation, field: u32, base: &[Formed], full: &[Formed]) -> bool {
    is_at_most(made.field_form(field), base) && is_at_most(made.full_form(field), full)
}

fn has_headings(made: &Preparation, meaning: &Meaning) -> bool {
    has_forms(made, 0, &[], &[])
        && has_forms(made, 1, meaning.base, meaning.full)
        && has_forms(made, 2, &[], &[])
        && has_forms(made, 3, &[], &[])
}

fn means(
    rt: &impl Abort,
    alloc: Global,
    piece: &[u8],
    meaning: &Meaning,
) -> Result<bool, RecordFault> {
    let made = prepared(rt, alloc, "ULIB", piece)?;
    let is_its_entry = is_entry(&made, meaning);
    let (rec, rest) = made.into_parts();
    let is_prepared = is_authority(&rest, meaning) && has_headings(&rest, meaning);
    let key = rest.key().copy(alloc)?;
    let (_rec, again) = Preparation::of_record(alloc, rest.class(), key, rec)?;
    Ok(
        is_its_entry
            && is_prepared
            && is_authority(&again, meaning)
            && has_headings(&again, meaning),
    )
}

#[test]
fn what_records_come_to(rt: HostRuntime) -> Result<(), Fail> {
    for (piece, meaning) in &RECORDS {
        assert!(rt; means(&rt, rt.alloc(), piece, meaning)?);
    }
    Ok(())
}
