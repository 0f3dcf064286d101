//! What the words of the command line ask for.
ghost use Rattle.std.specs.Prelude.{◌≡◌, ◌∷◌, ℕ, List, Option, IfOk, IfErr, option_map, []};
ghost use Rattle.std.specs.List.{list_all};
ghost use Rattle.command_words.specs.Command.{Command, as_make, as_verify, is_digest, is_hex_digit, as_migrate, as_salvage, as_checkpoint, as_quick, as_help, alone, only_telling, over_parts, over_input, over_journal, behind_verb, asks_how, is_help_flag, is_version_flag, takes_no_large, asked_of, is_large, behind_large, command_of, Help};
ghost use Rattle.command_words.specs.Topics.{topic_of};
ghost use Rattle.command_words.specs.Asked.{alone_asked, AsksAlone, AsksFor, IsAloneAskedBy, IsAskedBy, IsFileless, IsUnasked};

use crate::asked::{AloneRequest, PointRequest, Request, Unasked};
use crate::loading::{browse, load, pass, refused, run};
use crate::looking::{is_looking, looking, reading};
use crate::names::{are_four_alone, are_three_alone, are_two_names, number_upto};
use crate::parts::{join, split, totals};
use crate::topic::{Topic, named_topic};
use marc_types::{Sequence, Text};
use std::alloc::Global;

/// The words of the command line, without the program's name.
pub type Words = Sequence<Text>;

/// The most records of a workload.
const MOST_COUNT: u64 = 1_048_576;

fn make(words: &[Text]) -> Option<AloneRequest<'_>>
    ensures { AsksAlone result (as_make words.now) }
{
    let [seed, count, out] = words else {
        return None;
    };
    let seed = number_upto(u64::MAX, seed.as_str())?;
    let count = number_upto(MOST_COUNT, count.as_str())?;
    if out.is_empty() {
        return None;
    }
    Some(AloneRequest::Make {
        seed,
        count,
        out: out.as_str(),
    })
}

/// Whether a word is the 64 hexadecimal digits of a SHA-256.
#[tactic(auto, unfolding(crate::specs::Command::is_digest))]
fn is_digest(word: &str) -> bool
    ensures { result ≡ is_digest word.now }
{
    word.len() == 64 && are_hex_digits(word.as_bytes())
}

/// Whether a byte is a hexadecimal digit, of either case.
#[tactic(auto, unfolding(crate::specs::Command::is_hex_digit))]
fn is_hex_digit(byte: u8) -> bool
    ensures { result ≡ is_hex_digit byte }
{
    (b'0'..=b'9').contains(&byte) || (b'A'..=b'F').contains(&byte) || (b'a'..=b'f').contains(&byte)
}

/// Whether all are hexadecimal digits.
fn are_hex_digits(bytes: &[u8]) -> bool
    ensures { result ≡ list_all is_hex_digit bytes.now }
{
    bytes.iter().all(|byte| is_hex_digit(*byte))
}

/// The words of `verify` with a number of entries and a digest.
fn verify_digest<'a>(journal: &'a str, count: &str, digest: &'a str) -> Option<AloneRequest<'a>>
    ensures { AsksAlone result (as_verify (journal.now ∷ count.now ∷ digest.now ∷ [])) }
{
    let count = number_upto(u64::MAX, count)?;
    (!journal.is_empty() && is_digest(digest)).then_some(AloneRequest::VerifyDigest {
        journal,
        count,
        digest,
    })
}

fn verify(words: &[Text]) -> Option<AloneRequest<'_>>
    ensures { AsksAlone result (as_verify words.now) }
{
    match words {
        [journal] if !journal.as_str().is_empty() => Some(AloneRequest::Verify {
            journal: journal.as_str(),
        }),
        [journal, point] if !journal.as_str().is_empty() && !point.as_str().is_empty() => Some(
            AloneRequest::Point(PointRequest::Verify {
                journal: journal.as_str(),
                point: point.as_str(),
            }),
        ),
        [journal, count, digest] => {
            verify_digest(journal.as_str(), count.as_str(), digest.as_str())
        }
        _ => None,
    }
}

fn migrate(words: &[Text]) -> Option<AloneRequest<'_>>
    ensures { AsksAlone result (as_migrate words.now) }
{
    match words {
        [old, new] if are_two_names(old.as_str(), new.as_str()) => Some(AloneRequest::Migrate {
            old: old.as_str(),
            new: new.as_str(),
        }),
        _ => None,
    }
}

fn salvage(words: &[Text]) -> Option<AloneRequest<'_>>
    ensures { AsksAlone result (as_salvage words.now) }
{
    match words {
        [journal, new] if are_two_names(journal.as_str(), new.as_str()) => Some(
            AloneRequest::Salvage {
                journal: journal.as_str(),
                new: new.as_str(),
            },
        ),
        _ => None,
    }
}

fn checkpoint(words: &[Text]) -> Option<AloneRequest<'_>>
    ensures { AsksAlone result (as_checkpoint words.now) }
{
    match words {
        [journal, point] if are_two_names(journal.as_str(), point.as_str()) => {
            Some(AloneRequest::Point(PointRequest::Checkpoint {
                journal: journal.as_str(),
                point: point.as_str(),
            }))
        }
        _ => None,
    }
}

fn quick(words: &[Text]) -> Option<AloneRequest<'_>>
    ensures { AsksAlone result (as_quick words.now) }
{
    match words {
        [journal, point, out] => quick_alone(journal.as_str(), point.as_str(), out.as_str()),
        [journal, point, out, report] => quick_report(
            journal.as_str(),
            point.as_str(),
            out.as_str(),
            report.as_str(),
        ),
        _ => None,
    }
}

fn quick_alone<'a>(journal: &'a str, point: &'a str, out: &'a str) -> Option<AloneRequest<'a>>
    ensures { AsksAlone result (as_quick (journal.now ∷ point.now ∷ out.now ∷ [])) }
{
    are_three_alone(journal, point, out).then_some(AloneRequest::Point(PointRequest::Quick {
        journal,
        point,
        out,
    }))
}

fn quick_report<'a>(
    journal: &'a str,
    point: &'a str,
    out: &'a str,
    report: &'a str,
) -> Option<AloneRequest<'a>>
    ensures { AsksAlone result (as_quick (journal.now ∷ point.now ∷ out.now ∷ report.now ∷ [])) }
{
    are_four_alone(journal, point, out, report).then_some(AloneRequest::Point(
        PointRequest::QuickReport {
            journal,
            point,
            out,
            report,
        },
    ))
}

/// Whether a word asks for the version, as it does in other programs.
fn is_version_flag(word: &str) -> bool
    ensures { result ≡ is_version_flag word.now }
{
    word == "--version" || word == "-V"
}

/// Whether a word asks for help, as it does in other programs.
fn is_help_flag(word: &str) -> bool
    ensures { result ≡ is_help_flag word.now }
{
    word == "--help" || word == "-h"
}

fn help(words: &[Text]) -> Option<AloneRequest<'_>>
    ensures { AsksAlone result (as_help words.now) }
{
    match words {
        [] => Some(AloneRequest::Help { topic: Topic::All }),
        [word] if is_version_flag(word.as_str()) => Some(AloneRequest::Version),
        [word] => Some(AloneRequest::Help {
            topic: named_topic(word.as_str())?,
        }),
        _ => None,
    }
}

/// A request that takes no words.
fn wordless<'a>(asked: AloneRequest<'a>, words: &[Text]) -> Option<AloneRequest<'a>>
    requires { IsFileless asked }
    ensures { AsksAlone result (alone (alone_asked asked.entry) words.now) }
{
    words.is_empty().then_some(asked)
}

/// What the words of a command that only tells something ask for.
#[tactic(auto, unfolding(crate::specs::Command::only_telling))]
fn told<'a>(verb: &str, rest: &'a [Text]) -> Option<AloneRequest<'a>>
    ensures { AsksAlone result (only_telling verb.now rest.now) }
{
    match verb {
        "help" => help(rest),
        flag if is_help_flag(flag) => wordless(AloneRequest::Help { topic: Topic::All }, rest),
        "version" => wordless(AloneRequest::Version, rest),
        flag if is_version_flag(flag) => wordless(AloneRequest::Version, rest),
        _ => None,
    }
}

/// What is asked for by a request that reads no file of a library, or by none.
fn alone<'a>(asked: Option<AloneRequest<'a>>) -> Result<Request<'a>, Unasked>
    ensures { (words : List (List ℕ)) (command : Option Command) → AsksAlone asked.entry command → IsAskedBy result words command }
{
    match asked {
        Some(asked) => Ok(Request::Alone(asked)),
        None => Err(Unasked::Usage),
    }
}

/// What the words of a command over the parts of a catalogue ask for.
#[tactic(auto, unfolding(crate::specs::Command::over_parts))]
fn over_parts<'a>(alloc: Global, verb: &str, rest: &'a [Text]) -> Result<Request<'a>, Unasked>
    ensures { IsAskedBy result rest.now (over_parts verb.now rest.now) }
{
    match verb {
        "split" => split(alloc, rest),
        "join" => alone(join(rest)),
        "totals" => alone(totals(rest)),
        verb => alone(told(verb, rest)),
    }
}

/// What the words of a command over files that hold no journal ask for.
#[tactic(auto, unfolding(crate::specs::Command::over_input))]
fn over_input<'a>(alloc: Global, verb: &str, rest: &'a [Text]) -> Result<Request<'a>, Unasked>
    ensures { IsAskedBy result rest.now (over_input verb.now rest.now) }
{
    match verb {
        "reading" => Ok(Request::Alone(reading(alloc, rest)?)),
        "refused" => refused(alloc, rest),
        verb => over_parts(alloc, verb, rest),
    }
}

/// What the words of a command over a journal that loads nothing ask for.
#[tactic(auto, unfolding(crate::specs::Command::over_journal))]
fn over_journal<'a>(alloc: Global, verb: &str, rest: &'a [Text]) -> Result<Request<'a>, Unasked>
    ensures { IsAskedBy result rest.now (over_journal verb.now rest.now) }
{
    if is_looking(verb) {
        return Ok(Request::Alone(looking(alloc, verb, rest)?));
    }
    match verb {
        "verify" => alone(verify(rest)),
        "migrate" => alone(migrate(rest)),
        "salvage" => alone(salvage(rest)),
        "checkpoint" => alone(checkpoint(rest)),
        "quick" => alone(quick(rest)),
        verb => over_input(alloc, verb, rest),
    }
}

/// What a verb and the words behind it ask for.
#[tactic(auto, unfolding(crate::specs::Command::behind_verb))]
fn behind_verb<'a>(alloc: Global, verb: &str, rest: &'a [Text]) -> Result<Request<'a>, Unasked>
    ensures { IsAskedBy result rest.now (behind_verb verb.now rest.now) }
{
    match verb {
        "pass" => pass(alloc, rest),
        "run" => run(alloc, rest),
        "load" => load(alloc, rest),
        "browse" => browse(alloc, rest),
        "make" => alone(make(rest)),
        verb => over_journal(alloc, verb, rest),
    }
}

/// Whether the words ask how their command is used, as `load --help` does.
#[tactic(auto, unfolding(crate::specs::Command::asks_how))]
fn asks_how(verb: &str, rest: &[Text]) -> bool
    ensures { result ≡ asks_how verb.now rest.now }
{
    match rest {
        [word] => is_help_flag(word.as_str()) && verb != "verify",
        _ => false,
    }
}

/// How a command is used.
fn how(verb: &str) -> Option<AloneRequest<'static>>
    ensures { AsksAlone result (option_map Help (topic_of verb.now)) }
{
    Some(AloneRequest::Help {
        topic: named_topic(verb)?,
    })
}

/// Whether `large` changes no limits of the command of this name, before which it doesn't stand then.
#[tactic(auto, unfolding(crate::specs::Command::takes_no_large))]
fn takes_no_large(verb: &str) -> bool
    ensures { result ≡ takes_no_large verb.now }
{
    verb == "make"
        || verb == "help"
        || verb == "version"
        || is_help_flag(verb)
        || is_version_flag(verb)
}

/// What some words ask for, the first of which is the verb, where `large` stands before them, or doesn't.
#[tactic(auto, unfolding(crate::specs::Command::asked_of))]
fn asked<'a>(
    alloc: Global,
    large: bool,
    verb: &str,
    rest: &'a [Text],
) -> Result<Request<'a>, Unasked>
    ensures { IsAskedBy result rest.now (asked_of large (verb.now ∷ rest.now)) }
{
    if asks_how(verb, rest) {
        return alone(how(verb));
    }
    if large && takes_no_large(verb) {
        return Err(Unasked::Usage);
    }
    behind_verb(alloc, verb, rest)
}

/// Whether the words begin with `large`, and don't ask how it is used, as `large --help` does. A command behind it has the limits of a large
/// catalogue.
#[tactic(auto, unfolding(crate::specs::Command::is_large))]
pub fn is_large(words: &Words) -> bool
    ensures { result ≡ is_large words.now }
{
    match words.as_slice().split_first() {
        Some((word, rest)) => word.as_str() == "large" && !asks_how(word.as_str(), rest),
        None => false,
    }
}

/// The words without such a `large`.
#[tactic(auto, using(crate::proofs::Commands::none_large))]
pub fn behind_large(words: &Words) -> &[Text]
    ensures { result.now ≡ behind_large words.now }
{
    match words.as_slice().split_first() {
        Some((_, rest)) if is_large(words) => rest,
        _ => words.as_slice(),
    }
}

/// What the words ask for, with the libraries of their files.
pub fn request(alloc: Global, words: &Words) -> Result<Request<'_>, Unasked>
    ensures asked { IfOk result (AsksFor words.now) }

    // They ask for nothing exactly where they are no command; or there is no memory for libraries that they name.
    ensures unasked { IfErr result (λ why. IsUnasked why (command_of words.now)) }
{
    let Some((verb, rest)) = behind_large(words).split_first() else {
        return Err(Unasked::Usage);
    };
    asked(alloc, is_large(words), verb.as_str(), rest)
}
