ghost use Rattle.std.specs.Prelude.{◌≡◌, ◌+◌, ◌<◌, ◌≤◌, [], length, take, drop, MatchOption, MatchResult, IfSome, IfOk, OnErr, IfNone};
ghost use Rattle.marc_stream.specs.Pieces.{is_line_end};
ghost use Rattle.marc_stream.specs.Window.{Moves, BeginsWith, EndsNone, IsEnded, AreLineEnds, BeginsItem, Blocks, EndsAs, Skips, Cuts, CutsNone, SkipsLineEnds};

use crate::window::Window;
use marc_types::Refusal;
use memchr::memchr;
use outside::{Failed, Source};

/// The most bytes that a piece has, its terminator among them.
const MAX_PIECE_LEN: usize = 99_999;

const RECORD_TERMINATOR: u8 = 0x1D;

const LINE_FEED: u8 = 0x0A;

const CARRIAGE_RETURN: u8 = 0x0D;

/// How the item ends with which the buffered bytes begin.
#[derive(Clone, Copy, Debug)]
pub enum Ending {
    /// With its terminator, after so many bytes.
    At(usize),
    /// With the input.
    Missing,
    /// Behind the buffered bytes, which are more than a piece has.
    Beyond,
}

/// An item that was cut.
#[derive(Clone, Copy, Debug)]
pub enum Cut {
    /// A piece: the place in the file of its first byte, and how many of the bytes taken last are its.
    Piece { offset: u64, len: usize },
    Refused { offset: u64, refusal: Refusal },
}

// The place of the first terminator. The first `searched` bytes were looked through and have none.
fn terminator(bytes: &[u8], searched: usize) -> Option<usize>
    requires within { searched ≤ length bytes.now }
    requires none { EndsNone (take searched bytes.now) }
    ensures { MatchOption result (EndsNone bytes.now)
        (λ at. (at < length bytes.now) × IsEnded (take (at + 1) bytes.now)) }
{
    match memchr(RECORD_TERMINATOR, &bytes[searched..]) {
        Some(at) => Some(searched + at),
        None => None,
    }
}

fn is_line_end(byte: u8) -> bool
    ensures { result ≡ is_line_end byte }
{
    byte == LINE_FEED || byte == CARRIAGE_RETURN
}

// How many line ends stand in front.
fn line_ends(bytes: &[u8]) -> usize
    ensures within { result ≤ length bytes.now }
    ensures skipped { AreLineEnds (take result bytes.now) }
    ensures begins { result < length bytes.now → BeginsItem (drop result bytes.now) }
{
    for (i, byte) in bytes.iter().enumerate() {
        if !is_line_end(*byte) {
            return i;
        }
    }
    bytes.len()
}

impl<S: Source> Window<S> {
    /// Takes the next item and the line ends in front of it. `None` is the end of the input.
    pub fn cut(&mut self) -> Result<Option<Cut>, Failed>
        ensures cuts { IfOk result (λ found. MatchOption found (CutsNone self.old self.new)
            (λ cut. Cuts self.old cut self.new)) }
        ensures blocked { OnErr result (Blocks self.old self.new) }
    {
        if !self.skip_line_ends()? {
            return Ok(None);
        }
        Ok(Some(self.cut_item()?))
    }

    // Takes the item with which the buffered bytes begin.
    fn cut_item(&mut self) -> Result<Cut, Failed>
        requires { BeginsItem self.old.buffered }
        ensures cuts { IfOk result (λ cut. Cuts self.old cut self.new) }
        ensures blocked { OnErr result (Blocks self.old self.new) }
    {
        let offset = self.offset();
        match self.find_end()? {
            Ending::At(len) => {
                self.take(len);
                Ok(if len > MAX_PIECE_LEN {
                    Cut::Refused {
                        offset,
                        refusal: Refusal::Overlong,
                    }
                } else {
                    Cut::Piece { offset, len }
                })
            }
            Ending::Missing => {
                self.take(self.len());
                Ok(Cut::Refused {
                    offset,
                    refusal: Refusal::Unfinished,
                })
            }
            Ending::Beyond => {
                self.skip_item()?;
                Ok(Cut::Refused {
                    offset,
                    refusal: Refusal::Overlong,
                })
            }
        }
    }

    // Takes the line ends in front, and answers whether any other byte is there.
    fn skip_line_ends(&mut self) -> Result<bool, Failed>
        ensures skips { IfOk result (SkipsLineEnds self.old self.new) }
        ensures blocked { OnErr result (Blocks self.old self.new) }
    {
        'line_ends: loop {
            let count = line_ends(self.bytes());
            self.take(count);
            if self.len() > 0 {
                return Ok(true);
            }
            if self.fill()? == 0 {
                return Ok(false);
            }
        }
    }

    // Reads on until it is known how the item ends with which the buffered bytes begin.
    fn find_end(&mut self) -> Result<Ending, Failed>
        ensures moves { Moves self.old self.new [] }
        ensures begins { BeginsWith self.new.buffered self.old.buffered }
        ensures ends { IfOk result (EndsAs self.new) }
        ensures blocked { OnErr result (Blocks self.old self.new) }
    {
        let mut searched = 0;
        'reads: loop {
            if let Some(at) = terminator(self.bytes(), searched) {
                return Ok(Ending::At(at + 1));
            }
            searched = self.len();
            if searched > MAX_PIECE_LEN {
                return Ok(Ending::Beyond);
            }
            if self.fill()? == 0 {
                return Ok(Ending::Missing);
            }
        }
    }

    // Takes the item that began with the buffered bytes, and didn't end in them, through its terminator.
    fn skip_item(&mut self) -> Result<(), Failed>
        requires { EndsNone self.old.buffered }
        ensures skips { IfOk result (λ _. Skips self.old self.new) }
        ensures blocked { OnErr result (Blocks self.old self.new) }
    {
        'reads: loop {
            self.take(self.len());
            if self.fill()? == 0 {
                return Ok(());
            }
            if let Some(at) = terminator(self.bytes(), 0) {
                self.take(at + 1);
                return Ok(());
            }
        }
    }
}
