//! What is wrong with words that are no command, told so that the next try is right.

ghost use Rattle.std.specs.Prelude.{◌≤◌};

use crate::telling::text_of;
use command_words::{Topic, named_kind, named_topic};
use marc_types::{NoMemory, Text, can_be_code};
use std::alloc::Global;
use std::fmt;
use strsim::levenshtein;

/// The most files that one command loads.
const MOST_FILES: usize = 64;

/// The most that a mistyped command may differ from the one that was meant: letters put in, left out or changed.
const NEAR: usize = 2;

/// What is wrong with words that are no command.
#[derive(Clone, Copy, Debug, PartialEq, Eq)]
pub enum Slip<'a> {
    NoCommand,
    /// No command has this name; another's is near.
    Unknown {
        word: &'a str,
        nearest: Option<&'static str>,
    },
    /// A command behind `reading` that isn't had so.
    Unread {
        word: &'a str,
    },
    /// A command behind `large` that isn't had so.
    Unlimited {
        word: &'a str,
    },
    TooFew {
        topic: Topic,
    },
    TooMany {
        topic: Topic,
        first: &'a str,
    },
    TooManyFiles {
        topic: Topic,
        files: usize,
    },
    /// A word is empty.
    Empty {
        topic: Topic,
    },
    /// A word stands where `CODE=FILE` is wanted, and has no `=`, or no file behind it.
    NoFile {
        topic: Topic,
        word: &'a str,
    },
    BadCode {
        topic: Topic,
        code: &'a str,
    },
    /// One file is to be two things.
    Twice {
        topic: Topic,
        name: &'a str,
    },
    NoNumber {
        topic: Topic,
        word: &'a str,
    },
    /// A word stands where the kind of some headings is wanted.
    NoKind {
        word: &'a str,
    },
    /// A word stands where it is wanted how many headings are listed.
    NoCount {
        word: &'a str,
    },
    /// A word stands where a number of entries is wanted.
    NoEntries {
        word: &'a str,
    },
    /// A word stands where the digits of a SHA-256 are wanted.
    NoDigest {
        word: &'a str,
    },
    /// A word stands where a number of parts is wanted.
    NoParts {
        word: &'a str,
    },
}

/// How the words behind a command's name go: so many names of files, so many words `CODE=FILE`, and maybe a code.
#[derive(Drop)]
struct Form {
    topic: Topic,
    names: usize,
    files: Files,
    may_have_code: bool,
    ghost few: { names ≤ 4 },
}

#[derive(Clone, Copy, PartialEq, Eq)]
enum Files {
    None,
    One,
    Many,
}

const VERBS: [&str; 24] = [
    "pass",
    "run",
    "load",
    "browse",
    "export",
    "report",
    "make",
    "verify",
    "migrate",
    "salvage",
    "matches",
    "holdings",
    "headings",
    "worklist",
    "checkpoint",
    "quick",
    "reading",
    "refused",
    "split",
    "join",
    "totals",
    "large",
    "help",
    "version",
];

/// What is wrong with words that are no command.
pub fn slip_in<'a>(alloc: Global, words: &'a [Text]) -> Result<Slip<'a>, NoMemory> {
    let Some((verb, behind)) = words.split_first() else {
        return Ok(Slip::NoCommand);
    };
    if verb.as_str() == "large" {
        return slip_of_large(alloc, behind);
    }
    slip_of_command(alloc, verb, behind)
}

/// Whether a command is none behind `large`.
fn takes_no_large(verb: &str) -> bool {
    let is_option = matches!(verb, "--help" | "-h" | "--version" | "-V");
    let topic = named_topic(verb);
    is_option
        || matches!(
            topic,
            Some(Topic::Make | Topic::Help | Topic::Version | Topic::Large)
        )
}

/// What is wrong with the words behind `large`, the first of which is a command's name.
fn slip_of_large<'a>(alloc: Global, behind: &'a [Text]) -> Result<Slip<'a>, NoMemory> {
    let Some((verb, behind)) = behind.split_first() else {
        return Ok(Slip::TooFew {
            topic: Topic::Large,
        });
    };
    if takes_no_large(verb.as_str()) {
        return Ok(Slip::Unlimited {
            word: verb.as_str(),
        });
    }
    slip_of_command(alloc, verb, behind)
}

/// What is wrong with a command's name, or with the words behind it.
fn slip_of_command<'a>(
    alloc: Global,
    verb: &'a Text,
    behind: &'a [Text],
) -> Result<Slip<'a>, NoMemory> {
    match named_topic(verb.as_str()) {
        Some(topic) if topic != Topic::Statuses => slip_behind(alloc, topic, behind),
        _ => Ok(Slip::Unknown {
            word: verb.as_str(),
            nearest: nearest(alloc, verb.as_str())?,
        }),
    }
}

/// The command whose name is near a word, if there is one.
fn nearest(alloc: Global, word: &str) -> Result<Option<&'static str>, NoMemory> {
    let mut least = NEAR + 1;
    let mut found = None;
    for verb in VERBS {
        let edits = levenshtein(alloc, word, verb)?;
        if edits < least {
            least = edits;
            found = Some(verb);
        }
    }
    Ok(found)
}

/// How the words behind a command's name go, where there are so many.
fn form_of(topic: Topic, words: usize) -> Form {
    let (names, files, may_have_code) = match topic {
        Topic::Pass | Topic::Refused => (1, Files::One, false),
        Topic::Run => (3, Files::Many, false),
        Topic::Load => (1, Files::Many, false),
        Topic::Browse => (4, Files::Many, false),
        Topic::Export => (2, Files::None, true),
        Topic::Report | Topic::Matches | Topic::Migrate | Topic::Salvage | Topic::Checkpoint => {
            (2, Files::None, false)
        }
        Topic::Make => (3, Files::None, false),
        Topic::Quick => (if words > 3 { 4 } else { 3 }, Files::None, false),
        Topic::Verify => (words.clamp(1, 3), Files::None, false),
        Topic::Worklist => (3, Files::None, true),
        Topic::Holdings => (3, Files::One, true),
        Topic::Headings | Topic::Reading => (2, Files::None, false),
        Topic::Split
        | Topic::Join
        | Topic::Totals
        | Topic::Large
        | Topic::Help
        | Topic::All
        | Topic::Version
        | Topic::Statuses => (0, Files::None, false),
    };
    Form {
        topic,
        names,
        files,
        may_have_code,
    }
}

/// What is wrong with the words behind a command's name.
fn slip_behind<'a>(alloc: Global, topic: Topic, behind: &'a [Text]) -> Result<Slip<'a>, NoMemory> {
    match topic {
        Topic::Help => slip_of_help(alloc, behind),
        Topic::Reading => Ok(slip_of_reading(behind)),
        Topic::Headings => Ok(slip_of_headings(topic, behind)),
        Topic::Split => Ok(slip_of_split(behind)),
        Topic::Join => Ok(slip_of_join(behind)),
        Topic::Totals => Ok(slip_of_totals(behind)),
        Topic::Verify if behind.len() == 3 => Ok(slip_of_digest(behind)),
        topic => Ok(slip_of_form(&form_of(topic, behind.len()), behind)),
    }
}

/// What is wrong with words that are to have a form.
fn slip_of_form<'a>(form: &Form, behind: &'a [Text]) -> Slip<'a> {
    slip_of_count(form, behind)
        .or(slip_of_names(form, behind))
        .or(slip_of_files(form, behind))
        .or(slip_of_code(form, behind))
        .unwrap_or(Slip::TooFew { topic: form.topic })
}

/// What is wrong with the words behind `reading`, the first of which is a command's name.
fn slip_of_reading(behind: &[Text]) -> Slip<'_> {
    let topic = Topic::Reading;
    let Some((verb, behind)) = behind.split_first() else {
        return Slip::TooFew { topic };
    };
    let meant = match verb.as_str() {
        "headings" => return slip_of_headings(topic, behind),
        "export" => Topic::Export,
        "report" | "matches" => Topic::Report,
        "holdings" => Topic::Holdings,
        "worklist" => Topic::Worklist,
        word => return Slip::Unread { word },
    };
    let mut form = form_of(meant, behind.len());
    form.topic = topic;
    slip_of_form(&form, behind)
}

/// What is wrong with the words `JOURNAL KIND FROM MOST OUT`.
fn slip_of_headings(topic: Topic, behind: &[Text]) -> Slip<'_> {
    let [journal, kind, _, most, out] = behind else {
        return match behind.get(5) {
            Some(first) => Slip::TooMany {
                topic,
                first: first.as_str(),
            },
            None => Slip::TooFew { topic },
        };
    };
    if journal.is_empty() || out.is_empty() {
        return Slip::Empty { topic };
    }
    if named_kind(kind.as_str()).is_none() {
        return Slip::NoKind {
            word: kind.as_str(),
        };
    }
    if journal == out {
        return Slip::Twice {
            topic,
            name: out.as_str(),
        };
    }
    Slip::NoCount {
        word: most.as_str(),
    }
}

/// What is wrong with the words `JOURNAL N HEX`.
fn slip_of_digest(behind: &[Text]) -> Slip<'_> {
    let topic = Topic::Verify;
    let [journal, count, digest] = behind else {
        return Slip::TooFew { topic };
    };
    if journal.is_empty() {
        return Slip::Empty { topic };
    }
    if is_number(count) {
        Slip::NoDigest {
            word: digest.as_str(),
        }
    } else {
        Slip::NoEntries {
            word: count.as_str(),
        }
    }
}

/// What is wrong with the words `N PREFIX CODE=FILE ..`.
fn slip_of_split(behind: &[Text]) -> Slip<'_> {
    let topic = Topic::Split;
    let [count, prefix, files @ ..] = behind else {
        return Slip::TooFew { topic };
    };
    if files.is_empty() {
        return Slip::TooFew { topic };
    }
    if files.len() > MOST_FILES {
        return Slip::TooManyFiles {
            topic,
            files: files.len(),
        };
    }
    if prefix.is_empty() {
        return Slip::Empty { topic };
    }
    files
        .iter()
        .find_map(|word| slip_of_file(topic, word))
        .unwrap_or(Slip::NoParts {
            word: count.as_str(),
        })
}

/// What is wrong with the words `OUT EXPORT ..`.
fn slip_of_join(behind: &[Text]) -> Slip<'_> {
    let topic = Topic::Join;
    let [out, _, ..] = behind else {
        return Slip::TooFew { topic };
    };
    if behind.iter().any(|name| name.is_empty()) {
        return Slip::Empty { topic };
    }
    Slip::Twice {
        topic,
        name: out.as_str(),
    }
}

/// What is wrong with the words `REPORT0 REPORT ..`.
fn slip_of_totals(behind: &[Text]) -> Slip<'_> {
    let topic = Topic::Totals;
    if behind.len() < 2 {
        Slip::TooFew { topic }
    } else {
        Slip::Empty { topic }
    }
}

/// Whether a word is a number below 2^64.
fn is_number(word: &Text) -> bool {
    word.as_bytes().iter().all(|byte| byte.is_ascii_digit()) && word.as_str().parse::<u64>().is_ok()
}

fn slip_of_help<'a>(alloc: Global, behind: &'a [Text]) -> Result<Slip<'a>, NoMemory> {
    match behind {
        [word] => Ok(Slip::Unknown {
            word: word.as_str(),
            nearest: nearest(alloc, word.as_str())?,
        }),
        [_, second, ..] => Ok(Slip::TooMany {
            topic: Topic::Help,
            first: second.as_str(),
        }),
        [] => Ok(Slip::NoCommand),
    }
}

/// Too few words, or more than there can be.
fn slip_of_count<'a>(form: &Form, behind: &'a [Text]) -> Option<Slip<'a>> {
    let (least, most) = match form.files {
        Files::None => (form.names, form.names),
        Files::One => (form.names + 1, form.names + 1),
        Files::Many => (form.names + 1, form.names + MOST_FILES),
    };
    let most = if form.may_have_code { most + 1 } else { most };
    if behind.len() < least {
        return Some(Slip::TooFew { topic: form.topic });
    }
    let first = behind.get(most)?;
    if form.files == Files::Many {
        Some(Slip::TooManyFiles {
            topic: form.topic,
            files: behind.len() - form.names,
        })
    } else {
        Some(Slip::TooMany {
            topic: form.topic,
            first: first.as_str(),
        })
    }
}

/// A name that is empty or no number where one is wanted, or one that stands twice.
fn slip_of_names<'a>(form: &Form, behind: &'a [Text]) -> Option<Slip<'a>> {
    let topic = form.topic;
    let (names, files) = behind.split_at_checked(form.names)?;
    if names.iter().any(|name| name.is_empty()) {
        return Some(Slip::Empty { topic });
    }
    if topic == Topic::Make {
        return slip_of_numbers(names);
    }
    for (place, name) in names.iter().enumerate() {
        let later = &names[place + 1..];
        if later.contains(name)
            || files
                .iter()
                .any(|word| file_of(word) == Some(name.as_str()))
        {
            return Some(Slip::Twice {
                topic,
                name: name.as_str(),
            });
        }
    }
    None
}

/// SEED where it is no number below 2^64, else COUNT.
fn slip_of_numbers(names: &[Text]) -> Option<Slip<'_>> {
    let seed = names.first()?;
    let word = if is_number(seed) { names.get(1)? } else { seed };
    Some(Slip::NoNumber {
        topic: Topic::Make,
        word: word.as_str(),
    })
}

/// A word where a library's file is wanted that is no `CODE=FILE`.
fn slip_of_files<'a>(form: &Form, behind: &'a [Text]) -> Option<Slip<'a>> {
    let files = match form.files {
        Files::None => 0,
        Files::One => 1,
        Files::Many => MOST_FILES,
    };
    behind
        .iter()
        .skip(form.names)
        .take(files)
        .find_map(|word| slip_of_file(form.topic, word))
}

fn slip_of_file(topic: Topic, word: &Text) -> Option<Slip<'_>> {
    match word.as_str().split_once('=') {
        Some((_, "")) | None => Some(Slip::NoFile {
            topic,
            word: word.as_str(),
        }),
        Some((code, _)) if !can_be_code(code.as_bytes()) => Some(Slip::BadCode { topic, code }),
        Some(_) => None,
    }
}

/// The file of a word `CODE=FILE`.
fn file_of(word: &Text) -> Option<&str> {
    let (_, file) = word.as_str().split_once('=')?;
    Some(file)
}

/// A bad code behind the names and the file.
fn slip_of_code<'a>(form: &Form, behind: &'a [Text]) -> Option<Slip<'a>> {
    let place = match form.files {
        Files::One => form.names + 1,
        Files::None | Files::Many => form.names,
    };
    let code = behind.get(place)?;
    if form.may_have_code && !can_be_code(code.as_bytes()) {
        Some(Slip::BadCode {
            topic: form.topic,
            code: code.as_str(),
        })
    } else {
        None
    }
}

/// How a command goes: the first lines of its help.
fn usage_of(topic: Topic) -> &'static str {
    let text = text_of(topic);
    match text.split_once("\n\n") {
        Some((usage, _)) => usage,
        None => text,
    }
}

impl Slip<'_> {
    /// The command that was meant, as far as its name tells.
    fn topic(&self) -> Option<Topic> {
        match *self {
            Slip::NoCommand | Slip::Unknown { .. } => None,
            Slip::Unread { .. } => Some(Topic::Reading),
            Slip::Unlimited { .. } => Some(Topic::Large),
            Slip::TooFew { topic }
            | Slip::TooMany { topic, .. }
            | Slip::TooManyFiles { topic, .. }
            | Slip::Empty { topic }
            | Slip::NoFile { topic, .. }
            | Slip::BadCode { topic, .. }
            | Slip::Twice { topic, .. }
            | Slip::NoNumber { topic, .. } => Some(topic),
            Slip::NoKind { .. } | Slip::NoCount { .. } => Some(Topic::Headings),
            Slip::NoEntries { .. } | Slip::NoDigest { .. } => Some(Topic::Verify),
            Slip::NoParts { .. } => Some(Topic::Split),
        }
    }

    fn write_reason<W: fmt::Write>(&self, f: &mut fmt::Formatter<W>) -> fmt::Result {
        match *self {
            Slip::NoCommand => f.write_str("no command is given"),
            Slip::Unknown {
                word,
                nearest: None,
            } => write!(f, "there is no command {word}"),
            Slip::Unknown {
                word,
                nearest: Some(nearest),
            } => write!(f, "there is no command {word}: did you mean {nearest}?"),
            Slip::Unread { word } => write!(
                f,
                "reading stands before export, report, matches, holdings, headings or worklist, and not before {word}"
            ),
            Slip::Unlimited { word } => write!(
                f,
                "large stands before every command but make, help and version, and not before {word}"
            ),
            Slip::TooFew { .. } => f.write_str("a word is missing"),
            Slip::TooMany { first, .. } => write!(f, "one word too many: {first}"),
            Slip::TooManyFiles { files, .. } => {
                write!(f, "{files} files, and one command takes {MOST_FILES}")
            }
            Slip::Empty { .. } => f.write_str("a file's name is empty"),
            Slip::NoFile { word, .. } => write!(f, "{word} isn't CODE=FILE"),
            Slip::BadCode { code, .. } => write!(
                f,
                "{code} is no code: 1 to 16 signs of ASCII, no blanks, no parentheses"
            ),
            Slip::Twice { name, .. } => write!(f, "{name} is named twice"),
            Slip::NoNumber { word, .. } => write!(
                f,
                "{word} is no such number: SEED below 2^64, COUNT at most 1048576"
            ),
            Slip::NoKind { word } => write!(
                f,
                "{word} is no kind: personal, corporate, meeting, title, chronological, topical, geographic or genre"
            ),
            Slip::NoCount { word } => {
                write!(f, "{word} is no such number: MOST from 1 to 100000")
            }
            Slip::NoEntries { word } => write!(f, "{word} is no such number: N below 2^64"),
            Slip::NoDigest { word } => { write!(f, "{word} is no SHA-256: 64 hexadecimal digits") }
            Slip::NoParts { word } => write!(f, "{word} is no such number: N from 2 to 1024"),
        }
    }
}

impl fmt::Display for Slip<'_> {
    fn fmt<W: fmt::Write>(&self, f: &mut fmt::Formatter<W>) -> fmt::Result {
        self.write_reason(f)?;
        match self.topic() {
            Some(topic) => write!(f, "\n{}", usage_of(topic)),
            None => f.write_str("\nunion_cat help tells the commands"),
        }
    }
}
