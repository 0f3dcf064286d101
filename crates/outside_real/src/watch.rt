//! How far a file has come, told on standard error while it is read or written.
use crate::ticking::{BYTES, PIECES, SECONDS, is_past, seconds};
use std::alloc::Global;
use std::fmt;
use std::sync::Arc;
use std::sync::atomic::{AtomicBool, AtomicU64, Ordering};
use std::time::Clock;

/// The line of progress at a terminal's foot, which all files of a room share: when it was written last, and whether it stands there.
#[derive(Drop)]
pub struct Line {
    told_at: AtomicU64,
    stands: AtomicBool,
}

impl Line {
    /// No line yet; the first is due some seconds later.
    pub fn new<R: Clock>(rt: &R) -> Self {
        Line {
            told_at: AtomicU64::new(seconds(rt).unwrap_or(0)),
            stands: AtomicBool::new(false),
        }
    }

    // Whether the last line is some seconds old. Of those who ask at once one is answered so.
    fn is_due(&self, now: u64) -> bool {
        let last = self.told_at.load(Ordering::SeqCst);
        now.saturating_sub(last) >= SECONDS
            && self
                .told_at
                .compare_exchange(last, now, Ordering::SeqCst, Ordering::SeqCst)
                .is_ok()
    }

    /// The line goes, so that others can be written.
    pub fn clear<R: Eprint>(&self, rt: &R) {
        if self.stands.swap(false, Ordering::SeqCst) {
            let _told = eprint!(rt; "\r\u{1b}[K");
        }
    }
}

/// What a file is that is watched.
#[derive(Clone, Copy, Debug, PartialEq, Eq)]
pub enum Sort {
    Input,
    Journal,
    Output,
}

/// How far a file has come.
#[derive(Clone, Copy, Debug)]
struct Stand<'a> {
    name: &'a str,
    sort: Sort,
    bytes: u64,
    // how many there are, where that is known
    of: Option<u64>,
    pieces: u64,
    // how many pieces come in a second
    rate: u64,
}

impl fmt::Display for Stand<'_> {
    fn fmt<W: fmt::Write>(&self, f: &mut fmt::Formatter<W>) -> fmt::Result {
        let (name, bytes, pieces, rate) = (self.name, self.bytes, self.pieces, self.rate);
        match (self.sort, self.of) {
            (Sort::Input, Some(of)) => write!(
                f,
                "{name}: {pieces} pieces, {bytes} of {of} bytes, {rate} pieces a second"
            ),
            (Sort::Input, None) => {
                write!(
                    f,
                    "{name}: {pieces} pieces, {bytes} bytes, {rate} pieces a second"
                )
            }
            (Sort::Journal, Some(of)) => write!(f, "{name}: {bytes} of {of} bytes read"),
            (Sort::Journal, None) => write!(f, "{name}: {bytes} bytes read"),
            (Sort::Output, _) => write!(f, "{name}: {bytes} bytes written"),
        }
    }
}

/// Tells how far a file has come: on a terminal every few seconds in the line that all share, elsewhere in a line of its own from time to
/// time. A clock that fails has nothing told.
#[derive(Drop)]
pub struct Watch<R> {
    rt: R,
    line: Arc<Line>,
    is_terminal: bool,
    name: String,
    sort: Sort,
    of: Option<u64>,
    // the clock's seconds at the beginning
    begun: u64,
    bytes: u64,
    pieces: u64,
}

impl<R: Eprint + Clock + Clone> Watch<R> {
    /// A watch of the file of that name, of so many bytes where that is known. There is none where there is no memory or no clock for it.
    pub fn new(
        alloc: Global,
        rt: &R,
        line: &Arc<Line>,
        is_terminal: bool,
        name: &str,
        sort: Sort,
        of: Option<u64>,
    ) -> Option<Self> {
        Some(Watch {
            begun: seconds(rt)?,
            line: line.clone().ok()?,
            name: String::from_str(alloc, name).ok()?,
            rt: rt.clone().ok()?,
            is_terminal,
            sort,
            of,
            bytes: 0,
            pieces: 0,
        })
    }
}

impl<R: Eprint + Clock> Watch<R> {
    /// So many more bytes were read or written, in which so many pieces end.
    pub fn pass(&mut self, bytes: u64, pieces: u64) {
        self.reach(self.bytes.saturating_add(bytes), pieces);
    }

    /// The file was read up to there, and so many more pieces ended.
    pub fn reach(&mut self, place: u64, pieces: u64) {
        let (bytes_before, pieces_before) = (self.bytes, self.pieces);
        self.bytes = self.bytes.max(place);
        self.pieces = self.pieces.saturating_add(pieces);
        let Some(now) = seconds(&self.rt) else {
            return;
        };
        if self.is_terminal {
            if self.line.is_due(now) || self.is_whole_journal(bytes_before) {
                self.tell_anew(now);
            }
        } else if self.is_far(bytes_before, pieces_before) {
            self.tell_further(now);
        }
    }

    // Whether it is time for a line that stays, since that many bytes and pieces.
    fn is_far(&self, bytes: u64, pieces: u64) -> bool {
        match self.sort {
            Sort::Input => is_past(PIECES, pieces, self.pieces),
            Sort::Journal | Sort::Output => is_past(BYTES, bytes, self.bytes),
        }
    }

    // Whether a large journal was just read whole, behind which its catalogue is made and nothing is read for a while.
    fn is_whole_journal(&self, before: u64) -> bool {
        self.sort == Sort::Journal
            && self.bytes >= BYTES
            && before < self.bytes
            && self.of == Some(self.bytes)
    }

    // Writes a line that stays.
    fn tell_further(&self, now: u64) {
        let stand = self.stand(now);
        let _told = eprintln!(self.rt; "{stand}");
    }

    // Writes the line at the terminal's foot anew.
    fn tell_anew(&self, now: u64) {
        let stand = self.stand(now);
        self.line.stands.store(true, Ordering::SeqCst);
        let _told = eprint!(self.rt; "\r{stand}\u{1b}[K");
    }

    fn stand(&self, now: u64) -> Stand<'_> {
        let passed = now.saturating_sub(self.begun).max(1);
        Stand {
            name: self.name.as_str(),
            sort: self.sort,
            bytes: self.bytes,
            of: self.of,
            pieces: self.pieces,
            rate: self.pieces.checked_div(passed).unwrap_or(0),
        }
    }
}
