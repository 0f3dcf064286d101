use crate::tally::count_of;
use crate::watch::Watch;
use std::fs::File;
use std::io;
use std::io::Read;
use std::time::Clock;

/// What ends a record.
pub const RECORD_TERMINATOR: u8 = 0x1D;

/// A file that is read from its beginning to its end, and whose progress is told where it has a watch.
#[derive(Drop)]
pub struct WatchedFile<R> {
    file: File,
    watch: Option<Watch<R>>,
}

impl<R> WatchedFile<R> {
    /// The file, of which nothing was read, and its watch.
    pub fn new(file: File, watch: Option<Watch<R>>) -> Self {
        WatchedFile { file, watch }
    }
}

impl<R: Eprint + Clock> Read for WatchedFile<R> {
    fn read(&mut self, buf: &mut [u8]) -> io::Result<usize> {
        let answer = self.file.read(buf);
        if let (Ok(count), Some(watch)) = (&answer, &mut self.watch) {
            if let Some(piece) = buf.get(..*count) {
                watch.pass(piece.len() as u64, count_of(piece, RECORD_TERMINATOR));
            }
        }
        answer
    }
}
