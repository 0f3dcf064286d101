use super::steps::expect;
use marc_types::{Form, Item, Kind, NoMemory, Subfield, Subfields, Text};
use naco_form::{comparison, form};
use std::alloc::Global;
use std::process::Abort;
use std::test::Fail;

/// Code, text, comparison text.
const ROWS: [(u8, &str, &str); 15] = [
    (b'a', "Twain, Mark,", "twain, mark"),
    (b'd', "1835-1910,", "1835 1910"),
    (b'a', "SMITH, JOHN.", "smith, john"),
    (b'a', "Müller, [J.],", "muller, j"),
    (b'a', "Łódź", "lodz"),
    (b'a', "Þórr", "thorr"),
    (b'a', "Straße", "strasse"),
    (b'a', "O'Brien, K.", "obrien, k"),
    (b'a', "C# & C++", "c# & c++"),
    (b'a', "A, B, C", "a, b c"),
    (b'd', "A, B, C", "a b c"),
    (b'a', "Twain ,", "twain"),
    (b'a', "U.S.S.R.", "u s s r"),
    (b'a', ",", ""),
    (b'a', "-- ...", ""),
];

/// Greek, Cyrillic, Armenian, Hebrew, Arabic, Devanagari, Thai, Hangul, Kana, Han, Ethiopic, Georgian and Cherokee, and two
/// letters that fold to two characters: marks go, letters are folded, all else stays. The values are those of Python's tables.
const OTHER_SCRIPTS: [(u8, &str, &str); 14] = [
    (b'a', "Ἀριστοτέλης, ᾳ", "αριστοτελησ, αι"),
    (b'a', "Достоевский, Фёдор,", "достоевскии, федор"),
    (b'a', "Թումանյան, Հովհաննես", "թումանյան, հովհաննես"),
    (
        b'a',
        "\u{5e9}\u{5b8}\u{5c1}\u{5dc}\u{5d5}\u{5b9}\u{5dd},",
        "\u{5e9}\u{5dc}\u{5d5}\u{5dd}",
    ),
    (
        b'a',
        "\u{645}\u{64f}\u{62d}\u{64e}\u{645}\u{64e}\u{651}\u{62f}، \u{628}\u{646}",
        "\u{645}\u{62d}\u{645}\u{62f}، \u{628}\u{646}",
    ),
    (
        b'a',
        "प\u{94d}र\u{947}मच\u{902}द, म\u{941}\u{902}श\u{940}",
        "परमचद, मश\u{940}",
    ),
    (b'a', "น\u{e49}ำตาล", "นำตาล"),
    (
        b'a',
        "김, 소월",
        "\u{1100}\u{1175}\u{11b7}, \u{1109}\u{1169}\u{110b}\u{116f}\u{11af}",
    ),
    (b'a', "がぎぐ・パ", "かきく・ハ"),
    (b'a', "魯迅, 1881-1936", "魯迅, 1881 1936"),
    (b't', "ሰላም, ለኪ", "ሰላም ለኪ"),
    (b'a', "შოთა", "შოთა"),
    (b'a', "ꭰᏣ", "ᎠᏣ"),
    (b'a', "İstanbul ŉ", "istanbul n"),
];

fn is_compared_as(alloc: Global, code: u8, text: &str, want: &str) -> Result<bool, NoMemory> {
    let text = Text::from_str(alloc, text)?;
    let compared = comparison(alloc, code, &text)?;
    Ok(compared.as_str() == want)
}

fn expect_compared(
    rt: &impl Abort,
    alloc: Global,
    rows: &[(u8, &str, &str)],
) -> Result<(), NoMemory> {
    for (code, text, want) in rows {
        expect(rt, is_compared_as(alloc, *code, text, want)?, text);
    }
    Ok(())
}

#[test]
fn compares_the_rules_rows(rt: HostRuntime) -> Result<(), Fail> {
    expect_compared(&rt, rt.alloc(), &ROWS)?;
    Ok(())
}

#[test]
fn compares_other_scripts(rt: HostRuntime) -> Result<(), Fail> {
    expect_compared(&rt, rt.alloc(), &OTHER_SCRIPTS)?;
    Ok(())
}

fn part(alloc: Global, subs: &[(u8, &str)]) -> Result<Subfields, NoMemory> {
    let mut part = Vec::new(alloc);
    for &(code, text) in subs {
        let text = Text::from_str(alloc, text)?;
        part.push(Subfield { code, text })?;
    }
    Ok(Subfields::from_vec(part))
}

fn formed(alloc: Global, kind: Kind, subs: &[(u8, &str)]) -> Result<Form, NoMemory> {
    let part = part(alloc, subs)?;
    form(alloc, kind, &part)
}

/// Whether a form has this kind and these items.
fn is_form(made: &Form, kind: Kind, wanted: &[(u8, &str)]) -> bool {
    let items = made.items.as_slice();
    made.kind == kind && items.len() == wanted.len() && items.iter().zip(wanted).all(is_item)
}

fn is_item((item, (code, text)): (&Item, &(u8, &str))) -> bool {
    item.code == *code && item.text.as_str() == *text
}

fn has_form(
    alloc: Global,
    kind: Kind,
    subs: &[(u8, &str)],
    wanted: &[(u8, &str)],
) -> Result<bool, NoMemory> {
    let made = formed(alloc, kind, subs)?;
    Ok(is_form(&made, kind, wanted))
}

#[test]
fn leaves_empty_items_out(rt: HostRuntime) -> Result<(), Fail> {
    let alloc = rt.alloc();
    let dots = [(b'a', ","), (b'b', "-- ..."), (b'd', "")];
    assert!(rt; has_form(alloc, Kind::Corporate, &dots, &[])?);
    let twain = [(b'a', "Twain, Mark,"), (b'c', "..."), (b'd', "1835-1910.")];
    let items = [(b'a', "twain, mark"), (b'd', "1835 1910")];
    assert!(rt; has_form(alloc, Kind::Personal, &twain, &items)?);
    Ok(())
}
