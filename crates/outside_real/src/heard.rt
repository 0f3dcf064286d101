use std::alloc::Global;
use std::io;

/// How many lines are kept. They are also as many as show, where all are of a file's first pieces, that the file is no MARC.
pub const MOST_LINES: usize = 1_000;

const LINE_FEED: u8 = 0x0A;

/// What a console was given: its first lines, and how many there were.
#[derive(Drop)]
pub struct Heard {
    text: Vec<u8>,
    lines: u64,
    // whether there was no memory for one of the lines that are kept
    is_short: bool,
}

impl Heard {
    /// Nothing was given yet.
    pub fn new(alloc: Global) -> Self {
        Heard {
            text: Vec::new(alloc),
            lines: 0,
            is_short: false,
        }
    }

    /// The first lines, each with its end; none where there was no memory for them.
    pub fn text(&self) -> &[u8] {
        if self.is_short {
            b""
        } else {
            self.text.as_slice()
        }
    }

    /// How many lines there were.
    pub fn lines(&self) -> u64 {
        self.lines
    }

    /// What a write answered that was given these bytes is heard.
    pub fn hear(&mut self, answer: &io::Result<usize>, given: &[u8]) {
        if let Ok(count) = answer {
            if let Some(piece) = given.get(..*count) {
                self.take(piece);
            }
        }
    }

    // A piece more was written.
    fn take(&mut self, piece: &[u8]) {
        for byte in piece {
            if self.lines < MOST_LINES as u64 && self.text.push(*byte).is_err() {
                self.is_short = true;
            }
            if *byte == LINE_FEED {
                self.lines = self.lines.saturating_add(1);
            }
        }
    }
}
