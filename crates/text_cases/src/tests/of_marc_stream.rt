ghost use Rattle.std.specs.Prelude.{◌≡◌};

use marc_stream::{Next, Pieces};
use outside::{Failed, Source};
use std::alloc::{AllocError, Global};
use std::cmp::min;
use std::process::Abort;
use std::test::Fail;

/// A source in memory that gives a few bytes a read. The read of that number, from 0, fails.
#[derive(Drop)]
struct Chunks {
    bytes: Vec<u8>,
    at: usize,
    chunk: usize,
    reads: u64,
    fails: Option<u64>,
    faults: u64,
}

impl Source for Chunks {
    ghost use Rattle.std.specs.Prelude.{None, length, ◌-◌};

    ghost left = { λ _. None };

    ghost bound = { λ s. length s.bytes.items - s.at };

    ghost faults = { λ s. s.faults };

    fn remaining(&self) -> u64 {
        self.bytes.len().saturating_sub(self.at) as u64
    }

    fn read(&mut self, buf: &mut [u8]) -> Result<usize, Failed> {
        let number = self.reads;
        self.reads = number.saturating_add(1);
        if self.fails == Some(number) {
            self.faults = self.faults.saturating_add(1);
            return Err(Failed);
        }
        let rest = self.bytes.len().saturating_sub(self.at);
        let count = min(min(self.chunk, buf.len()), rest);
        if count > 0 {
            buf[..count].copy_from_slice(&self.bytes[self.at..self.at + count]);
            self.at += count;
        }
        Ok(count)
    }

    ghost left_within_bound = { λ _. tt };
}

#[derive(Clone, Copy, PartialEq)]
enum Seen {
    /// Ordinal, offset, and length with the terminator.
    Piece(u64, u64, usize),
    /// Ordinal, offset, and the refusal's number.
    Refused(u64, u64, u8),
    End,
    Fault,
}

const CHUNKS: [usize; 4] = [1, 2, 7, 131_072];

const OVERLONG: u8 = 1;

const UNFINISHED: u8 = 2;

/// So many bytes, the last of them a terminator.
fn push_piece(bytes: &mut Vec<u8>, len: usize) -> Result<(), AllocError> {
    push_bytes(bytes, b'x', len.saturating_sub(1))?;
    bytes.push(0x1D)?;
    Ok(())
}

fn push_bytes(bytes: &mut Vec<u8>, byte: u8, count: usize) -> Result<(), AllocError> {
    for _ in 0..count {
        bytes.push(byte)?;
    }
    Ok(())
}

fn answer_of(next: Next<'_>) -> Seen {
    match next {
        Next::Piece {
            ordinal,
            offset,
            bytes,
        } => Seen::Piece(ordinal, offset, bytes.len()),
        Next::Refused {
            ordinal,
            offset,
            refusal,
        } => Seen::Refused(ordinal, offset, refusal.number()),
        Next::End => Seen::End,
        Next::ReadFault => Seen::Fault,
    }
}

fn next_seen(pieces: &mut Pieces<Chunks>) -> Option<Seen> {
    if pieces.is_over() {
        return None;
    }
    Some(answer_of(pieces.next()))
}

/// Up to eight answers of `next`.
fn all_seen(alloc: Global, pieces: &mut Pieces<Chunks>) -> Result<Vec<Seen>, AllocError> {
    let mut all = Vec::with_capacity(alloc, 8)?;
    for _ in 0..8 {
        let Some(next) = next_seen(pieces) else {
            break;
        };
        all.push(next)?;
    }
    Ok(all)
}

/// All answers of `next` on these bytes, read in chunks, with the read of that number failing.
fn answers(
    alloc: Global,
    bytes: &[u8],
    chunk: usize,
    fails: Option<u64>,
) -> Result<(Vec<Seen>, u64), AllocError> {
    let source = Chunks {
        bytes: bytes.to_vec(alloc)?,
        at: 0,
        chunk,
        reads: 0,
        fails,
        faults: 0,
    };
    let mut pieces = match Pieces::new(alloc, source) {
        Ok(pieces) => pieces,
        Err((_source, _)) => return Err(AllocError),
    };
    let seen = all_seen(alloc, &mut pieces)?;
    let source = pieces.finish();
    Ok((seen, source.faults))
}

/// The answers on these bytes are these, in whatever chunks they are read.
fn expect_seen(
    rt: &impl Abort,
    alloc: Global,
    bytes: &[u8],
    wanted: &[Seen],
) -> Result<(), AllocError> {
    for chunk in &CHUNKS {
        let (seen, _) = answers(alloc, bytes, *chunk, None)?;
        assert!(rt; seen.as_slice() == wanted);
    }
    Ok(())
}

const THREE: [Seen; 4] = [
    Seen::Piece(1, 0, 1),
    Seen::Piece(2, 1, 1),
    Seen::Piece(3, 2, 1),
    Seen::End,
];

/// Terminators alone are pieces, and line ends are none.
const SMALL: [(&[u8], &[Seen]); 3] = [
    (b"", &[Seen::End]),
    (b"\r\n\n\r", &[Seen::End]),
    (b"\x1D\x1D\x1D", &THREE),
];

#[test]
fn small_files(rt: HostRuntime) -> Result<(), Fail> {
    for (bytes, wanted) in &SMALL {
        expect_seen(&rt, rt.alloc(), bytes, wanted)?;
    }
    Ok(())
}

/// Pieces of these lengths, each with what is behind it.
fn pieces_of(alloc: Global, lens: &[usize], behind: &[u8]) -> Result<Vec<u8>, AllocError> {
    let mut bytes = Vec::new(alloc);
    for len in lens {
        push_piece(&mut bytes, *len)?;
        bytes.extend_from_slice(behind)?;
    }
    Ok(bytes)
}

const TWO: [Seen; 3] = [Seen::Piece(1, 0, 158), Seen::Piece(2, 160, 135), Seen::End];

#[test]
fn line_ends_between_records_belong_to_none(rt: HostRuntime) -> Result<(), Fail> {
    let bytes = pieces_of(rt.alloc(), &[158, 135], b"\r\n")?;
    expect_seen(&rt, rt.alloc(), bytes.as_slice(), &TWO)?;
    Ok(())
}

fn expect_unfinished(rt: &impl Abort, alloc: Global, len: usize) -> Result<(), AllocError> {
    let mut bytes = Vec::new(alloc);
    push_bytes(&mut bytes, b'x', len)?;
    let wanted = [Seen::Refused(1, 0, UNFINISHED), Seen::End];
    expect_seen(rt, alloc, bytes.as_slice(), &wanted)
}

#[test]
fn bytes_without_a_terminator_are_unfinished(rt: HostRuntime) -> Result<(), Fail> {
    expect_unfinished(&rt, rt.alloc(), 100)?;
    expect_unfinished(&rt, rt.alloc(), 99_999)?;
    Ok(())
}

const LONG: [Seen; 6] = [
    Seen::Piece(1, 0, 99_999),
    Seen::Refused(2, 99_999, OVERLONG),
    Seen::Refused(3, 199_999, OVERLONG),
    Seen::Piece(4, 499_999, 2),
    Seen::Refused(5, 500_001, OVERLONG),
    Seen::End,
];

#[test]
fn the_longest_piece_has_99_999_bytes(rt: HostRuntime) -> Result<(), Fail> {
    let mut bytes = pieces_of(rt.alloc(), &[99_999, 100_000, 300_000, 2], b"")?;
    push_bytes(&mut bytes, b'x', 100_000)?;
    expect_seen(&rt, rt.alloc(), bytes.as_slice(), &LONG)?;
    Ok(())
}

const FAILED: [Seen; 2] = [Seen::Piece(1, 0, 2), Seen::Fault];

#[test]
fn a_failed_read_ends_the_items(rt: HostRuntime) -> Result<(), Fail> {
    // The third read fails: the four bytes before it hold one whole piece.
    let (seen, faults) = answers(rt.alloc(), b"a\x1Dbc\x1D", 2, Some(2))?;
    assert!(rt; seen.as_slice() == FAILED.as_slice() && faults == 1);
    Ok(())
}
