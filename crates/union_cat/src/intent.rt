//! What a command is about to do with its files, as the room is told before anything is opened.
use command_words::{
    AloneRequest, HeldLook, Look, Outputs, PartsRequest, PointRequest, Request, Unasked, UnheldLook,
};
use commit_journal::LARGEST_APPEND;
use outside_real::{Counts, Intent};
use std::alloc::Global;
use std::io;

/// What the command that is asked for is about to do.
pub fn intent_of(
    alloc: Global,
    asked: &Result<Request<'_>, Unasked>,
    is_terminal: bool,
) -> io::Result<Intent> {
    let mut intent = Intent::none(alloc);
    intent.is_terminal = is_terminal;
    intent.most_behind = LARGEST_APPEND as u64;
    if let Ok(asked) = asked {
        for output in outputs_of(asked) {
            if let Some(output) = output {
                intent.outputs.push(String::from_str(alloc, output)?)?;
            }
        }
        if let Request::Alone(alone) = asked {
            tell_of(alloc, alone, &mut intent)?;
        }
    }
    Ok(intent)
}

// What a command does that loads nothing into a journal.
fn tell_of(alloc: Global, asked: &AloneRequest<'_>, intent: &mut Intent) -> io::Result<()> {
    if let Some(journal) = journal_of(asked) {
        intent.reads = Some(String::from_str(alloc, journal)?);
    }
    if let Some(output) = uncounted_of(asked) {
        intent.uncounted = Some(String::from_str(alloc, output)?);
    }
    if let Some(file) = judged_of(asked) {
        intent.judged = Some(String::from_str(alloc, file)?);
    }
    if let Some(point) = points_of(asked) {
        intent.points = Some(String::from_str(alloc, point)?);
    }
    tell_reopened(alloc, asked, intent)?;
    intent.has_reading = has_reading(asked);
    intent.looks = looks(asked);
    intent.counts = counts_of(asked);
    Ok(())
}

// Which inputs a command opens more than once.
fn tell_reopened(alloc: Global, asked: &AloneRequest<'_>, intent: &mut Intent) -> io::Result<()> {
    match asked {
        AloneRequest::Parts(PartsRequest::Split { libraries, .. }) => {
            for library in libraries.as_slice() {
                intent
                    .reopened
                    .push(String::from_str(alloc, library.file.as_str())?)?;
            }
        }
        AloneRequest::Parts(PartsRequest::Join { exports, .. }) => {
            if let Some(first) = exports.first() {
                intent
                    .reopened
                    .push(String::from_str(alloc, first.as_str())?)?;
            }
        }
        _ => {}
    }
    Ok(())
}

/// The outputs of a command that has several, at which the room looks before it lets a journal be opened.
fn outputs_of<'a>(asked: &Request<'a>) -> [Option<&'a str>; 3] {
    match asked {
        Request::Load(wanted) => match wanted.outputs {
            Some(Outputs { out, report }) => [Some(out), Some(report), None],
            None => [None, None, None],
        },
        Request::Browse(wanted) => {
            let Outputs { out, report } = wanted.outputs;
            [Some(out), Some(report), Some(wanted.pages)]
        }
        Request::Alone(alone) => two_outputs_of(alone),
    }
}

fn two_outputs_of<'a>(asked: &AloneRequest<'a>) -> [Option<&'a str>; 3] {
    match asked {
        AloneRequest::Held(HeldLook::Holdings(wanted))
        | AloneRequest::Unheld(UnheldLook::Holdings(wanted)) => {
            [Some(wanted.out), Some(wanted.rest), None]
        }
        AloneRequest::Held(HeldLook::Worklist { list, page, .. })
        | AloneRequest::Unheld(UnheldLook::Worklist { list, page, .. }) => [
            Some(*list),
            Some(*page),
            None,
        ],
        AloneRequest::Point(PointRequest::QuickReport { out, report, .. }) => [
            Some(*out),
            Some(*report),
            None,
        ],
        _ => [None, None, None],
    }
}

/// The journal that a command only reads, where it opens one as such.
fn journal_of<'a>(asked: &AloneRequest<'a>) -> Option<&'a str> {
    match asked {
        AloneRequest::Held(HeldLook::Export { journal, .. })
        | AloneRequest::Held(HeldLook::Report { journal, .. })
        | AloneRequest::Held(HeldLook::Matches { journal, .. })
        | AloneRequest::Held(HeldLook::Headings { journal, .. })
        | AloneRequest::Held(HeldLook::Worklist { journal, .. })
        | AloneRequest::Point(PointRequest::Checkpoint { journal, .. })
        | AloneRequest::Point(PointRequest::Quick { journal, .. })
        | AloneRequest::Point(PointRequest::QuickReport { journal, .. }) => Some(*journal),
        AloneRequest::Held(HeldLook::Holdings(wanted)) => Some(wanted.journal),
        _ => None,
    }
}

/// The log of checkpoints: one append to it may be of any length.
fn points_of<'a>(asked: &AloneRequest<'a>) -> Option<&'a str> {
    match asked {
        AloneRequest::Point(PointRequest::Checkpoint { point, .. })
        | AloneRequest::Point(PointRequest::Quick { point, .. })
        | AloneRequest::Point(PointRequest::QuickReport { point, .. }) => Some(*point),
        _ => None,
    }
}

/// The file whose pieces a command judges.
fn judged_of<'a>(asked: &'a AloneRequest<'_>) -> Option<&'a str> {
    match asked {
        AloneRequest::Pass { library, .. } | AloneRequest::Refused { library, .. } => Some(
            library.file.as_str(),
        ),
        AloneRequest::Held(HeldLook::Holdings(wanted))
        | AloneRequest::Unheld(UnheldLook::Holdings(wanted)) => Some(wanted.library.file.as_str()),
        _ => None,
    }
}

/// Whether `reading` can stand before a command.
fn has_reading(asked: &AloneRequest<'_>) -> bool {
    matches!(asked, AloneRequest::Held(_))
}

/// Whether a command looks at its inputs without holding them.
fn looks(asked: &AloneRequest<'_>) -> bool {
    matches!(
        asked,
        AloneRequest::Verify { .. }
            | AloneRequest::VerifyDigest { .. }
            | AloneRequest::Point(PointRequest::Verify { .. })
            | AloneRequest::Unheld(_)
    )
}

/// What is told of how much a command wrote.
fn counts_of(asked: &AloneRequest<'_>) -> Counts {
    match asked {
        AloneRequest::Held(HeldLook::Export { code: Some(_), .. })
        | AloneRequest::Unheld(
            UnheldLook::Read {
                look: Look::Export(Some(_)),
                ..
            },
        ) => Counts::RecordsOfCode,
        AloneRequest::Held(HeldLook::Export { .. })
        | AloneRequest::Held(HeldLook::Holdings(_))
        | AloneRequest::Unheld(UnheldLook::Holdings(_))
        | AloneRequest::Point(PointRequest::Quick { .. })
        | AloneRequest::Point(PointRequest::QuickReport { .. })
        | AloneRequest::Parts(PartsRequest::Join { .. })
        | AloneRequest::Unheld(
            UnheldLook::Read {
                look: Look::Export(None),
                ..
            },
        ) => Counts::Records,
        AloneRequest::Held(HeldLook::Report { .. })
        | AloneRequest::Held(HeldLook::Matches { .. })
        | AloneRequest::Held(HeldLook::Headings { .. })
        | AloneRequest::Held(HeldLook::Worklist { .. })
        | AloneRequest::Unheld(UnheldLook::Worklist { .. })
        | AloneRequest::Unheld(UnheldLook::Read { .. }) => Counts::Lines,
        _ => Counts::Nothing,
    }
}

/// The output of which nothing is told, since it is of another sort than the other.
fn uncounted_of<'a>(asked: &AloneRequest<'a>) -> Option<&'a str> {
    match asked {
        AloneRequest::Point(PointRequest::QuickReport { report, .. }) => Some(*report),
        AloneRequest::Held(HeldLook::Worklist { page, .. })
        | AloneRequest::Unheld(UnheldLook::Worklist { page, .. }) => Some(*page),
        _ => None,
    }
}
