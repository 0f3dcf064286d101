//! The steps of a script.
use crate::turns::Turns;

/// What a line asks for.
#[derive(Clone, Copy)]
pub enum Step<'a> {
    /// Begins with an empty room, and prints the line.
    Title,
    /// Puts a file into the room: its name, and the script's files whose bytes it has one after another.
    File(&'a str, &'a str),
    /// Lets the call with that number fail on each object that is opened by the name.
    Fail(&'a str, u64),
    /// Lets each opening by the name fail.
    Shut(&'a str),
    /// Chooses how loaders take turns.
    Turns(Turns),
    /// Carries out the command of these words.
    Run(&'a str),
    /// Prints the bytes of a file.
    Show(&'a str),
    /// Prints the last page of a file of pages.
    LastPage(&'a str),
    /// Prints how many bytes a file has.
    Size(&'a str),
    /// Prints whether two files have the same bytes.
    Same(&'a str, &'a str),
    /// Begins with a room that has this file alone.
    Keep(&'a str),
    /// Begins with a room that has, under its name, the image of a closed log after a crash at that moment by that choice.
    Crash(&'a str, u64, u8),
    /// Prints what comes of an export of each image of a closed log: of each moment, by each of the three choices.
    Images(&'a str),
    /// Prints what comes of an export from each image of a closed log of checkpoints on, beside the journal: of each moment, by each of
    /// the three choices.
    Points(&'a str, &'a str),
    /// Prints how often an export from a log of checkpoints on, beside the journal, comes to each end while the log is damaged in one place
    /// after another; the last name is that of what is due.
    Damage(&'a str, &'a str, &'a str),
    /// Carries out the command of these words over the room's files again and again, each time with the next call failing on each object
    /// that is opened by the name, until none is left to fail; and prints what comes of each.
    FailEach(&'a str, &'a str),
    /// The line is no step.
    Unknown,
}

fn fail_of(words: &str) -> Option<Step<'_>> {
    let (name, call) = words.split_once(' ')?;
    Some(Step::Fail(name, call.parse().ok()?))
}

fn crash_of(words: &str) -> Option<Step<'_>> {
    let (name, rest) = words.split_once(' ')?;
    let (moment, choice) = rest.split_once(' ')?;
    Some(Step::Crash(name, moment.parse().ok()?, choice.parse().ok()?))
}

fn damage_of(words: &str) -> Option<Step<'_>> {
    let (journal, rest) = words.split_once(' ')?;
    let (point, due) = rest.split_once(' ')?;
    Some(Step::Damage(journal, point, due))
}

fn step_of<'a>(verb: &str, words: &'a str) -> Option<Step<'a>> {
    match verb {
        "==" => Some(Step::Title),
        "file" => {
            let (name, sources) = words.split_once(' ')?;
            Some(Step::File(name, sources))
        }
        "fail" => fail_of(words),
        "fail_each" => {
            let (name, words) = words.split_once(' ')?;
            Some(Step::FailEach(name, words))
        }
        "shut" => Some(Step::Shut(words)),
        "turns" => Some(Step::Turns(Turns::named(words)?)),
        "run" => Some(Step::Run(words)),
        "show" => Some(Step::Show(words)),
        "last_page" => Some(Step::LastPage(words)),
        "size" => Some(Step::Size(words)),
        "same" => {
            let (one, other) = words.split_once(' ')?;
            Some(Step::Same(one, other))
        }
        "keep" => Some(Step::Keep(words)),
        "crash" => crash_of(words),
        "images" => Some(Step::Images(words)),
        "damage" => damage_of(words),
        "points" => {
            let (journal, point) = words.split_once(' ')?;
            Some(Step::Points(journal, point))
        }
        _ => None,
    }
}

impl Step<'_> {
    /// The step of a line: a verb, a blank, and what it is about.
    pub fn of(line: &str) -> Step<'_> {
        let Some((verb, words)) = line.split_once(' ') else {
            return Step::Unknown;
        };
        step_of(verb, words).unwrap_or(Step::Unknown)
    }
}
