use outside::{Note, Notes};
use std::alloc::Global;

/// Notes that are kept as lines, for tests.
#[derive(Debug, Drop)]
pub struct MemNotes {
    alloc: Global,
    lines: Vec<String>,
    lost: u64,
}

impl MemNotes {
    /// No notes yet.
    pub fn new(alloc: Global) -> Self {
        MemNotes {
            alloc,
            lines: Vec::new(alloc),
            lost: 0,
        }
    }

    /// The lines of the notes, the first one first.
    pub fn lines(&self) -> &[String] {
        self.lines.as_slice()
    }

    /// How many notes there was no memory for.
    pub fn lost(&self) -> u64 {
        self.lost
    }

    fn keep(&mut self, note: &Note<'_>) -> bool {
        match note.to_string(self.alloc) {
            Ok(line) => self.lines.push(line).is_ok(),
            Err(_) => false,
        }
    }
}

impl Notes for MemNotes {
    fn tell(&mut self, note: &Note<'_>) {
        if !self.keep(note) {
            self.lost = self.lost.saturating_add(1);
        }
    }
}
