use outside::{Note, Notes, RefusedPiece};
use std::alloc::Global;

/// The most lines of refused pieces of one file.
const MOST_REFUSED: u64 = 100;

/// Notes as lines on standard error. Of a file's refused pieces the first are told, and then how many more there are.
#[derive(Drop)]
pub struct LineNotes<R> {
    rt: R,
    alloc: Global,
    // The file whose refused pieces are told, and how many there were.
    file: String,
    refused: u64,
}

impl<R: Eprint> LineNotes<R> {
    /// No notes yet.
    pub fn new(rt: R, alloc: Global) -> Self {
        LineNotes {
            rt,
            alloc,
            file: String::new(alloc),
            refused: 0,
        }
    }

    /// So many more pieces of the file that was told last were refused, of which nothing is told.
    pub fn pass_over(&mut self, pieces: u64) {
        self.refused = self.refused.saturating_add(pieces);
    }

    /// No more notes come.
    pub fn end(&mut self) {
        self.end_file();
    }

    fn line(&self, note: &Note<'_>) {
        let _told = eprintln!(self.rt; "union_cat: {note}");
    }

    // How many pieces of the last file were refused that weren't told.
    fn end_file(&mut self) {
        let more = self.refused.saturating_sub(MOST_REFUSED);
        if more > 0 {
            let file = self.file.as_str();
            let _told = eprintln!(self.rt; "union_cat: {file}: {more} more pieces refused");
        }
        self.refused = 0;
    }

    fn refuse(&mut self, note: &Note<'_>, piece: &RefusedPiece<'_>) {
        if piece.file != self.file.as_str() {
            self.end_file();
            self.file = String::from_str(self.alloc, piece.file).unwrap_or(String::new(self.alloc));
        }
        self.refused = self.refused.saturating_add(1);
        if self.refused <= MOST_REFUSED {
            self.line(note);
        }
    }
}

impl<R: Eprint> Notes for LineNotes<R> {
    fn tell(&mut self, note: &Note<'_>) {
        match note {
            Note::Refused(piece) => self.refuse(note, piece),
            Note::Counted(_) => {
                self.end_file();
                self.line(note);
            }
            Note::Progress(_) => self.line(note),
        }
    }
}
