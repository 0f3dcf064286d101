use crate::watch::Watch;
use crate::watched::RECORD_TERMINATOR;
use std::io;
use std::time::Clock;

const LINE_FEED: u8 = 0x0A;

/// What was written to an output: it is counted, and its progress is told where it has a watch.
#[derive(Drop)]
pub struct Tally<R> {
    watch: Option<Watch<R>>,
    records: u64,
    lines: u64,
}

impl<R> Tally<R> {
    /// Nothing is written yet.
    pub fn new(watch: Option<Watch<R>>) -> Self {
        Tally {
            watch,
            records: 0,
            lines: 0,
        }
    }

    /// How many records were written: how many record terminators.
    pub fn records(&self) -> u64 {
        self.records
    }

    /// How many lines were written.
    pub fn lines(&self) -> u64 {
        self.lines
    }
}

impl<R: Eprint + Clock> Tally<R> {
    /// What a write answered that was given these bytes is counted.
    pub fn count(&mut self, answer: &io::Result<usize>, given: &[u8]) {
        if let Ok(count) = answer {
            if let Some(piece) = given.get(..*count) {
                self.take(piece);
            }
        }
    }

    // A piece more was written.
    fn take(&mut self, piece: &[u8]) {
        let records = count_of(piece, RECORD_TERMINATOR);
        self.records = self.records.saturating_add(records);
        self.lines = self.lines.saturating_add(count_of(piece, LINE_FEED));
        if let Some(watch) = &mut self.watch {
            watch.pass(piece.len() as u64, records);
        }
    }
}

/// How often a byte stands among these.
pub fn count_of(piece: &[u8], wanted: u8) -> u64 {
    let mut count: u64 = 0;
    for byte in piece {
        if *byte == wanted {
            count = count.saturating_add(1);
        }
    }
    count
}
