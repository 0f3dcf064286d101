//! The words of commands that only look into a journal.
ghost use Rattle.std.specs.Prelude.{◌≡◌, ◌∷◌, ℕ, List, Option, Some};
ghost use Rattle.command_words.specs.Command.{Command, as_export, as_report, as_matches, as_holdings, as_headings, as_worklist, is_looking, looking, unheld, as_reading};
ghost use Rattle.command_words.specs.Asked.{held_asked, held_libraries, unheld_asked, unheld_libraries, AsksAlone, IsAloneAskedBy, IsUnheld};

use crate::asked::{
    AloneRequest, HeadingRange, HeldLook, HoldingsRequest, Look, Unasked, UnheldLook,
};
use crate::kind::named_kind;
use crate::names::{are_three_alone, are_three_names, are_two_names, library_in, number_upto};
use marc_types::{Text, can_be_code};
use std::alloc::Global;

/// The most headings of one list.
const MOST_HEADINGS: u64 = 100_000;

fn export(words: &[Text]) -> Option<AloneRequest<'_>>
    ensures { AsksAlone result (as_export words.now) }
{
    let (journal, out, code) = match words {
        [journal, out] => (journal, out, None),
        [journal, out, code] if can_be_code(code.as_bytes()) => (journal, out, Some(code.as_str())),
        _ => return None,
    };
    let (journal, out) = (journal.as_str(), out.as_str());
    are_two_names(journal, out).then_some(AloneRequest::Held(HeldLook::Export {
        journal,
        out,
        code,
    }))
}

fn report(words: &[Text]) -> Option<AloneRequest<'_>>
    ensures { AsksAlone result (as_report words.now) }
{
    match words {
        [journal, out] if are_two_names(journal.as_str(), out.as_str()) => Some(
            AloneRequest::Held(HeldLook::Report {
                journal: journal.as_str(),
                out: out.as_str(),
            }),
        ),
        _ => None,
    }
}

fn matches(words: &[Text]) -> Option<AloneRequest<'_>>
    ensures { AsksAlone result (as_matches words.now) }
{
    match words {
        [journal, out] if are_two_names(journal.as_str(), out.as_str()) => Some(
            AloneRequest::Held(HeldLook::Matches {
                journal: journal.as_str(),
                out: out.as_str(),
            }),
        ),
        _ => None,
    }
}

fn holdings<'a>(alloc: Global, words: &'a [Text]) -> Result<AloneRequest<'a>, Unasked>
    ensures { IsAloneAskedBy result words.now (as_holdings words.now) }
{
    let [journal, out, rest, words @ ..] = words else {
        return Err(Unasked::Usage);
    };
    let code = match words {
        [_] => None,
        [_, code] if can_be_code(code.as_bytes()) => Some(code.as_str()),
        _ => return Err(Unasked::Usage),
    };
    let (journal, out, rest) = (journal.as_str(), out.as_str(), rest.as_str());
    if !are_three_names(&words[..1], journal, out, rest) {
        return Err(Unasked::Usage);
    }
    let library = library_in(alloc, &words[0])?;
    Ok(AloneRequest::Held(HeldLook::Holdings(HoldingsRequest {
        journal,
        out,
        rest,
        library,
        code,
    })))
}

fn headings(words: &[Text]) -> Option<AloneRequest<'_>>
    ensures { AsksAlone result (as_headings words.now) }
{
    let [journal, kind, from, most, out] = words else {
        return None;
    };
    let kind = named_kind(kind.as_str())?;
    let most = number_upto(MOST_HEADINGS, most.as_str())?;
    let (journal, out) = (journal.as_str(), out.as_str());
    if most == 0 || !are_two_names(journal, out) {
        return None;
    }
    let from = from.as_str();
    Some(AloneRequest::Held(HeldLook::Headings {
        journal,
        range: HeadingRange { kind, from, most },
        out,
    }))
}

fn worklist(words: &[Text]) -> Option<AloneRequest<'_>>
    ensures { AsksAlone result (as_worklist words.now) }
{
    let (journal, list, page, code) = match words {
        [journal, list, page] => (journal, list, page, None),
        [journal, list, page, code] if can_be_code(code.as_bytes()) => {
            (journal, list, page, Some(code.as_str()))
        }
        _ => return None,
    };
    let (journal, list, page) = (journal.as_str(), list.as_str(), page.as_str());
    are_three_alone(journal, list, page).then_some(AloneRequest::Held(HeldLook::Worklist {
        journal,
        list,
        page,
        code,
    }))
}

/// What is asked for by a request that starts no threads and reads no file of a library, or by none.
fn fileless<'a>(asked: Option<AloneRequest<'a>>) -> Result<AloneRequest<'a>, Unasked>
    ensures { (words : List (List ℕ)) (command : Option Command) → AsksAlone asked.entry command → IsAloneAskedBy result words command }
{
    asked.ok_or(Unasked::Usage)
}

/// Whether a command of that verb only looks into a journal.
#[tactic(auto, unfolding(crate::specs::Command::is_looking))]
pub(crate) fn is_looking(verb: &str) -> bool
    ensures { result ≡ is_looking verb.now }
{
    verb == "export"
        || verb == "report"
        || verb == "matches"
        || verb == "holdings"
        || verb == "headings"
        || verb == "worklist"
}

/// What the words of a command ask for that only looks into a journal.
#[tactic(auto, unfolding(crate::specs::Command::looking))]
pub(crate) fn looking<'a>(
    alloc: Global,
    verb: &str,
    rest: &'a [Text],
) -> Result<AloneRequest<'a>, Unasked>
    ensures { IsAloneAskedBy result rest.now (looking verb.now rest.now) }
{
    match verb {
        "export" => fileless(export(rest)),
        "report" => fileless(report(rest)),
        "matches" => fileless(matches(rest)),
        "holdings" => holdings(alloc, rest),
        "headings" => fileless(headings(rest)),
        "worklist" => fileless(worklist(rest)),
        _ => Err(Unasked::Usage),
    }
}

/// The same look into a journal that isn't held.
fn unheld_look<'a>(look: HeldLook<'a>) -> UnheldLook<'a>
    ensures command { unheld (held_asked look.entry) ≡ Some (unheld_asked result) }
    ensures libraries { unheld_libraries result ≡ held_libraries look.entry }
{
    match look {
        HeldLook::Export { journal, out, code } => {
            let look = Look::Export(code);
            UnheldLook::Read { look, journal, out }
        }
        HeldLook::Report { journal, out } => {
            let look = Look::Report;
            UnheldLook::Read { look, journal, out }
        }
        HeldLook::Matches { journal, out } => {
            let look = Look::Matches;
            UnheldLook::Read { look, journal, out }
        }
        HeldLook::Headings {
            journal,
            range,
            out,
        } => {
            let look = Look::Headings(range);
            UnheldLook::Read { look, journal, out }
        }
        HeldLook::Holdings(asked) => UnheldLook::Holdings(asked),
        HeldLook::Worklist {
            journal,
            list,
            page,
            code,
        } => UnheldLook::Worklist {
            journal,
            list,
            page,
            code,
        },
    }
}

/// The same of a journal that isn't held, where it only looks into one.
#[tactic(auto, using(crate::proofs::Readings::never_unheld))]
fn unheld<'a>(asked: AloneRequest<'a>) -> Option<AloneRequest<'a>>
    ensures { IsUnheld asked.entry result }
{
    match asked {
        AloneRequest::Held(look) => Some(AloneRequest::Unheld(unheld_look(look))),
        _ => None,
    }
}

pub(crate) fn reading<'a>(alloc: Global, words: &'a [Text]) -> Result<AloneRequest<'a>, Unasked>
    ensures { IsAloneAskedBy result words.now (as_reading words.now) }
{
    let [verb, rest @ ..] = words else {
        return Err(Unasked::Usage);
    };
    behind_reading(alloc, verb.as_str(), rest)
}

/// What a verb behind `reading` and the words behind it ask for.
fn behind_reading<'a>(
    alloc: Global,
    verb: &str,
    rest: &'a [Text],
) -> Result<AloneRequest<'a>, Unasked>
    ensures { IsAloneAskedBy result (verb.now ∷ rest.now) (as_reading (verb.now ∷ rest.now)) }
{
    let asked = looking(alloc, verb, rest)?;
    unheld(asked).ok_or(Unasked::Usage)
}
