//! A log of checkpoints that is damaged in one place after another: what an export from it on comes to, and whether it is told.
ghost use Rattle.std.specs.Prelude.{◌≡◌, ℕ, List, None, IfOk};
ghost use Rattle.outside_mem.specs.Room.{room_view};

use crate::desk::{failed, ran, words_of};
use crate::room::{empty_room, with_file};
use crate::shown::{print_all, print_number};
use crate::turns::Turns;
use command_words::Words;
use outside_mem::MemRoom;
use std::alloc::{AllocError, Global};
use std::io;
use std::sync::Wait;
use std::thread::Threads;

/// The name of what is exported from a damaged log on.
const EXPORT: &str = "damaged.out";

/// The bits of a byte that are changed: its lowest, and its highest.
const CHANGES: [u8; 2] = [0x01, 0x80];

/// How an export from a log of checkpoints on ends.
#[derive(Clone, Copy, PartialEq, Eq)]
enum Verdict {
    Refused,
    /// It is what is due, and the checkpoint spared nothing.
    FromNone,
    /// It is what is due.
    FromPoint,
    /// It isn't what is due.
    Wrong,
}

/// How often each came, and how often `verify` passed a log from which the export was wrong.
#[derive(Clone, Copy)]
struct Counts {
    refused: u64,
    from_none: u64,
    from_point: u64,
    wrong: u64,
    passed: u64,
}

/// A journal and the log of its checkpoints by their names, with the commands over both, and the journal's export.
#[derive(Drop)]
struct Case<'a> {
    journal: &'a str,
    journal_bytes: &'a [u8],
    point: &'a str,
    due: &'a [u8],
    quick: Words,
    verify: Words,
}

impl Counts {
    fn none() -> Counts {
        Counts {
            refused: 0,
            from_none: 0,
            from_point: 0,
            wrong: 0,
            passed: 0,
        }
    }

    /// With one more.
    fn with(self, verdict: Verdict, passed: bool) -> Counts {
        let mut counts = self;
        match verdict {
            Verdict::Refused => counts.refused = counts.refused.saturating_add(1),
            Verdict::FromNone => counts.from_none = counts.from_none.saturating_add(1),
            Verdict::FromPoint => counts.from_point = counts.from_point.saturating_add(1),
            Verdict::Wrong => counts.wrong = counts.wrong.saturating_add(1),
        }
        if passed {
            counts.passed = counts.passed.saturating_add(1);
        }
        counts
    }

    fn print(self, rt: &HostRuntime, how: &str) -> io::Result<()> {
        print_all(rt, &[how, ": "])?;
        print_number(rt, "", self.refused, " refused, ")?;
        print_number(rt, "", self.from_none, " from none, ")?;
        print_number(rt, "", self.from_point, " from the checkpoint, ")?;
        print_number(rt, "", self.wrong, " wrong, of which verify passes ")?;
        print_number(rt, "", self.passed, "\n")
    }
}

/// The first so many bytes.
fn cut(alloc: Global, bytes: &[u8], at: usize) -> Result<Vec<u8>, AllocError> {
    Vec::from_slice(alloc, &bytes[..at.min(bytes.len())])
}

/// The bytes with some bits of one changed.
fn changed(alloc: Global, bytes: &[u8], at: usize, bits: u8) -> Result<Vec<u8>, AllocError> {
    let mut image = Vec::from_slice(alloc, bytes)?;
    if at < image.len() {
        image[at] ^= bits;
    }
    Ok(image)
}

fn line_of(alloc: Global, pieces: &[&str]) -> io::Result<Words> {
    let mut line = String::new(alloc);
    for piece in pieces {
        line.push_str(piece)?;
    }
    words_of(alloc, line.as_str())
}

fn verdict_of(status: u8, told: &[u8], out: Option<&[u8]>, due: &[u8]) -> Verdict {
    if status != 0 {
        Verdict::Refused
    } else if out != Some(due) {
        Verdict::Wrong
    } else if told.starts_with(b"resumed 0 ") {
        Verdict::FromNone
    } else {
        Verdict::FromPoint
    }
}

/// The room with the journal, and this log of checkpoints.
fn beside(alloc: Global, case: &Case<'_>, image: Vec<u8>) -> io::Result<MemRoom>
    ensures { IfOk result (λ room. (name : List ℕ) → (room_view room).open_as name ≡ None) }
{
    let journal = Vec::from_slice(alloc, case.journal_bytes)?;
    let room = with_file(empty_room(alloc), case.journal, journal).map_err(|_| failed())?;
    with_file(room, case.point, image).map_err(|_| failed())
}

/// With what comes of this log of checkpoints.
fn judged<H: Threads + Wait + Sync>(
    threads: &H,
    alloc: Global,
    case: &Case<'_>,
    image: Vec<u8>,
    counts: Counts,
) -> io::Result<Counts> {
    let mut room = beside(alloc, case, image)?;
    let (verified, _told) = ran(threads, alloc, &case.verify, &mut room, Turns::Open);
    let (status, told) = ran(threads, alloc, &case.quick, &mut room, Turns::Open);
    let verdict = verdict_of(status, told.as_slice(), room.file(EXPORT), case.due);
    Ok(counts.with(verdict, verdict == Verdict::Wrong && verified == 0))
}

/// Damages a log of checkpoints in one place after another, and prints how often each end comes: cut at each byte, and each byte changed.
pub fn damage<H: Threads + Wait + Sync>(
    rt: &HostRuntime,
    threads: &H,
    room: &MemRoom,
    journal: &str,
    point: &str,
    due: &str,
) -> io::Result<()> {
    let alloc = rt.alloc();
    let (Some(journal_bytes), Some(bytes), Some(due)) = (
        room.file(journal),
        room.file(point),
        room.file(due),
    ) else {
        return Err(failed());
    };
    let case = Case {
        journal,
        journal_bytes,
        point,
        due,
        quick: line_of(alloc, &["quick ", journal, " ", point, " ", EXPORT])?,
        verify: line_of(alloc, &["verify ", journal, " ", point])?,
    };
    let mut counts = Counts::none();
    for at in 0..bytes.len() {
        counts = judged(threads, alloc, &case, cut(alloc, bytes, at)?, counts)?;
    }
    counts.print(rt, "cut")?;
    let mut counts = Counts::none();
    for at in 0..bytes.len() {
        for bits in CHANGES {
            let image = changed(alloc, bytes, at, bits)?;
            counts = judged(threads, alloc, &case, image, counts)?;
        }
    }
    counts.print(rt, "changed")
}
