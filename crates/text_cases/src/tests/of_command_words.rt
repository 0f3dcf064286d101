use super::steps::expect;
use command_words::{
    AloneRequest, BrowseRequest, HeadingRange, HeldLook, HoldingsRequest, Libraries, Library,
    LoadRequest, Look, PartsRequest, PointRequest, Request, Topic, Unasked, UnheldLook, Words,
    request,
};
use marc_types::{Kind, NoMemory, Text};
use std::alloc::Global;
use std::process::Abort;
use std::test::Fail;

fn words_of(alloc: Global, line: &str) -> Result<Words, NoMemory> {
    let mut words = Vec::new(alloc);
    for word in line.split(' ') {
        words.push(Text::from_str(alloc, word)?)?;
    }
    Ok(Words::from_vec(words))
}

/// Words behind one another, with a bar before each.
fn barred(alloc: Global, words: &[&str]) -> Result<String, NoMemory> {
    let mut text = String::new(alloc);
    for word in words {
        text.push('|')?;
        text.push_str(word)?;
    }
    Ok(text)
}

fn push_word(text: &mut String, word: &str) -> Result<(), NoMemory> {
    text.push('|')?;
    text.push_str(word)?;
    Ok(())
}

/// The code and the file of a library, with a bar before each.
fn push_library(text: &mut String, library: &Library) -> Result<(), NoMemory> {
    push_word(text, library.code.as_str())?;
    push_word(text, library.file.as_str())
}

fn push_libraries(text: &mut String, libraries: &Libraries) -> Result<(), NoMemory> {
    for library in libraries.as_slice() {
        push_library(text, library)?;
    }
    Ok(())
}

fn load_text(alloc: Global, asked: &LoadRequest<'_>) -> Result<String, NoMemory> {
    let mut text = match &asked.outputs {
        Some(outputs) => barred(alloc, &["run", asked.journal, outputs.out, outputs.report])?,
        None => barred(alloc, &["load", asked.journal])?,
    };
    push_libraries(&mut text, &asked.libraries)?;
    Ok(text)
}

fn browse_text(alloc: Global, asked: &BrowseRequest<'_>) -> Result<String, NoMemory> {
    let outputs = asked.outputs;
    let mut text = barred(
        alloc,
        &["browse", asked.journal, outputs.out, outputs.report],
    )?;
    push_word(&mut text, asked.pages)?;
    push_libraries(&mut text, &asked.libraries)?;
    Ok(text)
}

/// A number that some line names.
fn number_text(number: u64) -> &'static str {
    match number {
        0 => "0",
        2 => "2",
        7 => "7",
        20 => "20",
        1_024 => "1024",
        100_000 => "100000",
        1_048_576 => "1048576",
        u64::MAX => "18446744073709551615",
        _ => "another number",
    }
}

fn topic_text(topic: Topic) -> &'static str {
    match topic {
        Topic::All => "all",
        Topic::Make => "make",
        Topic::Help => "help",
        Topic::Load => "load",
        Topic::Split => "split",
        Topic::Join => "join",
        Topic::Totals => "totals",
        Topic::Large => "large",
        Topic::Statuses => "statuses",
        _ => "another topic",
    }
}

fn look_text(look: Look<'_>) -> &'static str {
    match look {
        Look::Export(_) => "export",
        Look::Report => "report",
        Look::Matches => "matches",
        Look::Headings(_) => "headings",
    }
}

/// The kind of a range, by its word.
fn kind_text(kind: Kind) -> &'static str {
    match kind {
        Kind::Personal => "personal",
        Kind::Corporate => "corporate",
        Kind::Meeting => "meeting",
        Kind::Title => "title",
        Kind::Chronological => "chronological",
        Kind::Topical => "topical",
        Kind::Geographic => "geographic",
        Kind::Genre => "genre",
    }
}

fn push_range(text: &mut String, range: HeadingRange<'_>) -> Result<(), NoMemory> {
    push_word(text, kind_text(range.kind))?;
    push_word(text, range.from)?;
    push_word(text, number_text(range.most))
}

fn holdings_text(
    alloc: Global,
    verb: &str,
    asked: &HoldingsRequest<'_>,
) -> Result<String, NoMemory> {
    let mut text = barred(alloc, &[verb, asked.journal, asked.out, asked.rest])?;
    push_library(&mut text, &asked.library)?;
    push_word(&mut text, asked.code.unwrap_or("all"))?;
    Ok(text)
}

fn worklist_text(
    alloc: Global,
    verb: &str,
    names: &[&str],
    code: Option<&str>,
) -> Result<String, NoMemory> {
    let mut text = barred(alloc, &[verb])?;
    for name in names {
        push_word(&mut text, name)?;
    }
    push_word(&mut text, code.unwrap_or("all"))?;
    Ok(text)
}

fn read_text(alloc: Global, look: Look<'_>, journal: &str, out: &str) -> Result<String, NoMemory> {
    let mut text = barred(alloc, &["reading", look_text(look)])?;
    push_word(&mut text, journal)?;
    push_word(&mut text, out)?;
    match look {
        Look::Export(code) => push_word(&mut text, code.unwrap_or("all"))?,
        Look::Headings(range) => push_range(&mut text, range)?,
        Look::Report | Look::Matches => {}
    }
    Ok(text)
}

fn headings_text(alloc: Global, asked: &AloneRequest<'_>) -> Result<String, NoMemory> {
    match asked {
        AloneRequest::Held(
            HeldLook::Headings {
                journal,
                range,
                out,
            },
        ) => {
            let mut text = barred(alloc, &["headings", journal, out])?;
            push_range(&mut text, *range)?;
            Ok(text)
        }
        AloneRequest::Held(
            HeldLook::Worklist {
                journal,
                list,
                page,
                code,
            },
        ) => worklist_text(alloc, "worklist", &[journal, list, page], *code),
        AloneRequest::Unheld(
            UnheldLook::Worklist {
                journal,
                list,
                page,
                code,
            },
        ) => worklist_text(alloc, "reading worklist", &[journal, list, page], *code),
        AloneRequest::Held(HeldLook::Holdings(asked)) => holdings_text(alloc, "holdings", asked),
        AloneRequest::Unheld(UnheldLook::Holdings(asked)) => holdings_text(
            alloc,
            "reading holdings",
            asked,
        ),
        _ => Ok(String::from_str(alloc, "another command")?),
    }
}

/// A command over parts with its first name and the others.
fn named_text(alloc: Global, verb: &str, first: &str, others: &[Text]) -> Result<String, NoMemory> {
    let mut text = barred(alloc, &[verb, first])?;
    for word in others {
        push_word(&mut text, word.as_str())?;
    }
    Ok(text)
}

fn parts_text(alloc: Global, asked: &AloneRequest<'_>) -> Result<String, NoMemory> {
    match asked {
        AloneRequest::Parts(PartsRequest::Totals { first, reports }) => named_text(
            alloc, "totals", first, reports,
        ),
        AloneRequest::Parts(PartsRequest::Join { out, exports }) => named_text(
            alloc, "join", out, exports,
        ),
        AloneRequest::Parts(
            PartsRequest::Split {
                count,
                prefix,
                libraries,
            },
        ) => {
            let mut text = barred(alloc, &["split"])?;
            push_word(&mut text, number_text(*count))?;
            push_word(&mut text, prefix)?;
            push_libraries(&mut text, libraries)?;
            Ok(text)
        }
        asked => headings_text(alloc, asked),
    }
}

fn later_text(alloc: Global, asked: &AloneRequest<'_>) -> Result<String, NoMemory> {
    match asked {
        AloneRequest::Migrate { old, new } => barred(alloc, &["migrate", old, new]),
        AloneRequest::Salvage { journal, new } => barred(alloc, &["salvage", journal, new]),
        AloneRequest::Point(PointRequest::Checkpoint { journal, point }) => {
            barred(alloc, &["checkpoint", journal, point])
        }
        AloneRequest::Point(
            PointRequest::Quick {
                journal,
                point,
                out,
            },
        ) => barred(alloc, &["quick", journal, point, out]),
        AloneRequest::Point(
            PointRequest::QuickReport {
                journal,
                point,
                out,
                report,
            },
        ) => barred(alloc, &["quick", journal, point, out, report]),
        AloneRequest::Unheld(UnheldLook::Read { look, journal, out }) => read_text(
            alloc, *look, journal, out,
        ),
        AloneRequest::Refused { library, out } => {
            let mut text = barred(alloc, &["refused", out])?;
            push_library(&mut text, library)?;
            Ok(text)
        }
        asked => parts_text(alloc, asked),
    }
}

fn alone_text(alloc: Global, asked: &AloneRequest<'_>) -> Result<String, NoMemory> {
    match asked {
        AloneRequest::Pass { library, out } => {
            let mut text = barred(alloc, &["pass", out])?;
            push_library(&mut text, library)?;
            Ok(text)
        }
        AloneRequest::Held(HeldLook::Export { journal, out, code }) => {
            let mut text = barred(alloc, &["export", journal, out])?;
            push_word(&mut text, code.unwrap_or("all"))?;
            Ok(text)
        }
        AloneRequest::Held(HeldLook::Report { journal, out }) => barred(
            alloc,
            &["report", journal, out],
        ),
        AloneRequest::Make { seed, count, out } => {
            let mut text = barred(alloc, &["make", number_text(*seed), number_text(*count)])?;
            push_word(&mut text, out)?;
            Ok(text)
        }
        AloneRequest::Verify { journal } => barred(alloc, &["verify", journal]),
        AloneRequest::Point(PointRequest::Verify { journal, point }) => barred(
            alloc,
            &["verify", journal, point],
        ),
        AloneRequest::VerifyDigest {
            journal,
            count,
            digest,
        } => {
            let mut text = barred(alloc, &["verify", journal])?;
            push_word(&mut text, number_text(*count))?;
            push_word(&mut text, digest)?;
            Ok(text)
        }
        AloneRequest::Held(HeldLook::Matches { journal, out }) => barred(
            alloc,
            &["matches", journal, out],
        ),
        AloneRequest::Help { topic } => barred(alloc, &["help", topic_text(*topic)]),
        AloneRequest::Version => barred(alloc, &["version"]),
        later => later_text(alloc, later),
    }
}

// Behind functions without a clause, since the clauses of `request` would be unfolded at each later goal.
fn asked_text(alloc: Global, words: &Words) -> Result<String, NoMemory> {
    match request(alloc, words) {
        Ok(Request::Load(asked)) => load_text(alloc, &asked),
        Ok(Request::Browse(asked)) => browse_text(alloc, &asked),
        Ok(Request::Alone(asked)) => alone_text(alloc, &asked),
        Err(Unasked::Usage) => Ok(String::from_str(alloc, "usage")?),
        Err(Unasked::NoMemory) => Err(NoMemory),
    }
}

fn is_asked(alloc: Global, words: &Words, wanted: &str) -> Result<bool, NoMemory> {
    let text = asked_text(alloc, words)?;
    Ok(text.as_str() == wanted)
}

fn expect_asked(rt: &impl Abort, alloc: Global, rows: &[(&str, &str)]) -> Result<(), Fail> {
    for (line, wanted) in rows {
        let words = words_of(alloc, line)?;
        expect(rt, is_asked(alloc, &words, wanted)?, line);
    }
    Ok(())
}

fn expect_none(rt: &impl Abort, alloc: Global, lines: &[&str]) -> Result<(), Fail> {
    for line in lines {
        let words = words_of(alloc, line)?;
        expect(rt, is_asked(alloc, &words, "usage")?, line);
    }
    Ok(())
}

const WITH_FILES: [(&str, &str); 13] = [
    ("run j o r ULIB=f0 ULIB=f1", "|run|j|o|r|ULIB|f0|ULIB|f1"),
    ("run j o r A=b=c D=e", "|run|j|o|r|A|b=c|D|e"),
    ("load j A=f B=f", "|load|j|A|f|B|f"),
    ("browse j o r p A=f B=g", "|browse|j|o|r|p|A|f|B|g"),
    ("pass ./f A=f", "|pass|./f|A|f"),
    ("holdings j o r ULIB=h", "|holdings|j|o|r|ULIB|h|all"),
    ("holdings j o r A=h DLC", "|holdings|j|o|r|A|h|DLC"),
    (
        "reading holdings j o r A=h",
        "|reading holdings|j|o|r|A|h|all",
    ),
    (
        "reading holdings j o r A=h D",
        "|reading holdings|j|o|r|A|h|D",
    ),
    ("refused o ULIB=f", "|refused|o|ULIB|f"),
    ("large load j A=f B=g", "|load|j|A|f|B|g"),
    ("large pass o A=f", "|pass|o|A|f"),
    ("load large large=large.mrc", "|load|large|large|large.mrc"),
];

#[test]
fn lines_with_files(rt: HostRuntime) -> Result<(), Fail> {
    expect_asked(&rt, rt.alloc(), &WITH_FILES)
}

const OF_DIGESTS: [(&str, &str); 2] = [
    (
        "verify j 7 0123456789abcdef0123456789ABCDEF0123456789abcdef0123456789abcdef",
        "|verify|j|7|0123456789abcdef0123456789ABCDEF0123456789abcdef0123456789abcdef",
    ),
    (
        "verify j 18446744073709551615 0123456789ABCDEF0123456789ABCDEF0123456789ABCDEF0123456789ABCDEF",
        "|verify|j|18446744073709551615|0123456789ABCDEF0123456789ABCDEF0123456789ABCDEF0123456789ABCDEF",
    ),
];

#[test]
fn lines_with_digests(rt: HostRuntime) -> Result<(), Fail> {
    expect_asked(&rt, rt.alloc(), &OF_DIGESTS)
}

const OVER_JOURNALS: [(&str, &str); 22] = [
    ("export j o", "|export|j|o|all"),
    ("export j o DLC", "|export|j|o|DLC"),
    ("report j o", "|report|j|o"),
    ("verify ./j", "|verify|./j"),
    ("matches a b", "|matches|a|b"),
    ("migrate a b", "|migrate|a|b"),
    ("checkpoint j A=p", "|checkpoint|j|A=p"),
    ("quick j p o", "|quick|j|p|o"),
    ("reading export j o", "|reading|export|j|o|all"),
    ("reading export j o D", "|reading|export|j|o|D"),
    ("reading report j o", "|reading|report|j|o"),
    ("reading matches j o", "|reading|matches|j|o"),
    ("verify j j", "|verify|j|j"),
    ("quick j p o r", "|quick|j|p|o|r"),
    (
        "headings j title j 100000 o",
        "|headings|j|o|title|j|100000",
    ),
    ("headings j genre  20 o", "|headings|j|o|genre||20"),
    (
        "reading headings j topical x 20 o",
        "|reading|headings|j|o|topical|x|20",
    ),
    ("worklist j l p", "|worklist|j|l|p|all"),
    ("worklist j l p D", "|worklist|j|l|p|D"),
    ("reading worklist j l p", "|reading worklist|j|l|p|all"),
    ("large export j o D", "|export|j|o|D"),
    ("large reading report j o", "|reading|report|j|o"),
];

#[test]
fn lines_over_journals(rt: HostRuntime) -> Result<(), Fail> {
    expect_asked(&rt, rt.alloc(), &OVER_JOURNALS)
}

const OTHERS: [(&str, &str); 21] = [
    (
        "make 18446744073709551615 1048576 o",
        "|make|18446744073709551615|1048576|o",
    ),
    ("make 007 00000000000000000000 o", "|make|7|0|o"),
    ("help", "|help|all"),
    ("--help", "|help|all"),
    ("-h", "|help|all"),
    ("help make", "|help|make"),
    ("help help", "|help|help"),
    ("version", "|version"),
    ("--version", "|version"),
    ("-V", "|version"),
    ("help --version", "|version"),
    ("help statuses", "|help|statuses"),
    ("load --help", "|help|load"),
    ("make -h", "|help|make"),
    ("help large", "|help|large"),
    ("large --help", "|help|large"),
    ("large -h", "|help|large"),
    ("large load --help", "|help|load"),
    ("large make --help", "|help|make"),
    // a journal's name
    ("verify --help", "|verify|--help"),
    ("large verify --help", "|verify|--help"),
];

#[test]
fn other_lines(rt: HostRuntime) -> Result<(), Fail> {
    expect_asked(&rt, rt.alloc(), &OTHERS)
}

const OVER_PARTS: [(&str, &str); 12] = [
    ("totals a b", "|totals|a|b"),
    // numbers don't show that a report is named twice
    ("totals a b b a", "|totals|a|b|b|a"),
    ("join o a", "|join|o|a"),
    ("join o a b a", "|join|o|a|b|a"),
    ("split 2 p A=f", "|split|2|p|A|f"),
    ("split 1024 f A=f B=f", "|split|1024|f|A|f|B|f"),
    ("large totals a b", "|totals|a|b"),
    ("large join o a", "|join|o|a"),
    ("large split 2 p A=f", "|split|2|p|A|f"),
    ("help totals", "|help|totals"),
    ("join --help", "|help|join"),
    ("large split -h", "|help|split"),
];

#[test]
fn lines_over_parts(rt: HostRuntime) -> Result<(), Fail> {
    expect_asked(&rt, rt.alloc(), &OVER_PARTS)
}

const FAULTY_PARTS: [&str; 22] = [
    "totals",
    "totals a",
    "totals a ",
    "totals  a",
    "join",
    "join o",
    "join o o",
    "join o a o",
    "join o a ",
    "join  a",
    "split",
    "split 2",
    "split 2 p",
    "split 1 p A=f",
    "split 1025 p A=f",
    "split two p A=f",
    "split 2  A=f",
    "split 2 p f",
    "split 2 p A=",
    "split 2 p A(=f",
    "reading split 2 p A=f",
    "reading totals a b",
];

#[test]
fn faulty_lines_over_parts(rt: HostRuntime) -> Result<(), Fail> {
    expect_none(&rt, rt.alloc(), &FAULTY_PARTS)
}

const FAULTY_FILES: [&str; 39] = [
    "",
    "pass",
    "Pass o A=f",
    "pass o",
    "pass o A",
    "pass f A=f",
    "pass  A=f",
    "pass o A=",
    "pass o =f",
    "pass o A(=f",
    "pass o 12345678901234567=f",
    "pass o A=f B=g",
    "pass out ULIB",
    "pass out U(B=f",
    "run j out",
    "run j out rep",
    "run j j rep ULIB=f0",
    "run j o j A=f",
    "run j o o A=f",
    "run j o r A=f B=o",
    "load j",
    "load j A=f B=j",
    "browse j o r A=f",
    "browse j o r r A=f",
    "browse j o o p A=f",
    "browse j o r j A=f",
    "browse j o r p A=p",
    "holdings j o r",
    "holdings j o r D",
    "holdings j o o A=f",
    "holdings j j r A=f",
    "holdings j o j A=f",
    "holdings j o r A=r",
    "holdings j o r A=f D(",
    "holdings j o r A=f D D",
    "holdings j o r A=f B=f C=f",
    "refused o",
    "refused f A=f",
    "refused o A=f B=g",
];

#[test]
fn faulty_lines_with_files(rt: HostRuntime) -> Result<(), Fail> {
    let words = Words::from_vec(Vec::new(rt.alloc()));
    assert!(rt; is_asked(rt.alloc(), &words, "usage")?);
    expect_none(&rt, rt.alloc(), &FAULTY_FILES)
}

const FAULTY: [&str; 78] = [
    "export j",
    "export j j",
    "export j o D(",
    "export j o D D",
    "report j",
    "report j o D",
    "make 1 1048577 out",
    "make 18446744073709551616 1 o",
    "make 000000000000000000001 1 o",
    "make +1 1 o",
    "make 1  o",
    "make 1 1 ",
    "make 1 1",
    "verify",
    "verify j o x",
    "verify j ",
    "verify j 7 0123456789abcdef0123456789ABCDEF0123456789abcdef0123456789abcde",
    "verify j 7 0123456789abcdef0123456789ABCDEF0123456789abcdef0123456789abcdef0",
    "verify j 7 0123456789abcdef0123456789ABCDEF0123456789abcdef0123456789abcdeg",
    "verify j -7 0123456789abcdef0123456789ABCDEF0123456789abcdef0123456789abcdef",
    "verify j 7 0123456789abcdef0123456789ABCDEF0123456789abcdef0123456789abcdef o",
    "matches a",
    "matches a a",
    "matches a b c",
    "migrate a",
    "migrate a a",
    "migrate a b c",
    "salvage a",
    "salvage a a",
    "salvage a b c",
    "checkpoint j",
    "checkpoint j j",
    "checkpoint j p o",
    "quick j p",
    "quick j j o",
    "quick j p j",
    "quick j p p",
    "quick j p o o",
    "quick j p o p",
    "quick j p o r s",
    "headings j title x 20",
    "headings j titles x 20 o",
    "headings j title x 0 o",
    "headings j title x 100001 o",
    "headings j title x 20 j",
    "headings j title x 20 o o",
    "worklist j l",
    "worklist j l l",
    "worklist j l p D(",
    "reading",
    "reading export",
    "reading export j",
    "reading export j j",
    "reading export j o D(",
    "reading export j o D D",
    "reading report j o D",
    "reading matches j j",
    "reading verify j",
    "reading holdings j o o A=h",
    "reading load j A=f",
    "reading reading export j o",
    "help all",
    "help Make",
    "help make pass",
    "--help make",
    "-h make",
    "version 2",
    "--version version",
    "large",
    "large j",
    "large large export j o",
    "large make 1 1 o",
    "large help",
    "large help load",
    "large --help load",
    "large version",
    "large --version",
    "reading large export j o",
];

#[test]
fn other_faulty_lines(rt: HostRuntime) -> Result<(), Fail> {
    expect_none(&rt, rt.alloc(), &FAULTY)
}

/// A line that loads so many files.
fn load_line(alloc: Global, files: u32) -> Result<Words, NoMemory> {
    let mut line = String::from_str(alloc, "load j")?;
    for _ in 0..files {
        line.push_str(" A=f")?;
    }
    words_of(alloc, line.as_str())
}

/// How many libraries a load of so many files has; none where it is no command.
fn loaded_count(alloc: Global, files: u32) -> Result<Option<usize>, NoMemory> {
    let words = load_line(alloc, files)?;
    match request(alloc, &words) {
        Ok(Request::Load(asked)) => Ok(Some(asked.libraries.len())),
        Ok(Request::Alone(_) | Request::Browse(_)) | Err(Unasked::Usage) => Ok(None),
        Err(Unasked::NoMemory) => Err(NoMemory),
    }
}

#[test]
fn most_files(rt: HostRuntime) -> Result<(), Fail> {
    assert!(rt; loaded_count(rt.alloc(), 64)? == Some(64));
    assert!(rt; loaded_count(rt.alloc(), 65)? == None);
    Ok(())
}
