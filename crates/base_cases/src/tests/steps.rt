//! Calls of any object, and of any room that they leave with the name closed. Their clauses say no more, so that a test's proof knows no more.
ghost use Rattle.std.specs.Prelude.{◌≡◌, ℕ, ◌<◌, ◌≤◌, List, None, length};
ghost use Rattle.outside.specs.Disk.{longest_write};

use outside::{Disk, Failed, LONGEST_WRITE, Room, Sink, Source};
use std::process::Abort;

/// Reads: the answer, what the buffer then has, and how much may still come.
pub(crate) fn assert_read<S: Source, const LEN: usize>(
    rt: &impl Abort,
    source: &mut S,
    buffer: &mut [u8; LEN],
    answer: Result<usize, Failed>,
    bytes: &[u8; LEN],
    left: u64,
)
    requires { 0 < LEN }
{
    assert!(rt; source.read(buffer) == answer);
    assert!(rt; *buffer == *bytes);
    assert!(rt; source.remaining() == left);
}

pub(crate) fn read<S: Source, const LEN: usize>(
    source: &mut S,
    buffer: &mut [u8; LEN],
) -> Result<usize, Failed>
    requires { 0 < LEN }
{
    source.read(buffer)
}

pub(crate) fn write_all<K: Sink>(sink: &mut K, piece: &[u8]) -> Result<(), Failed> {
    sink.write_all(piece)
}

pub(crate) fn len<D: Disk>(disk: &D) -> u64 {
    disk.len()
}

pub(crate) fn sync<D: Disk>(disk: &mut D) -> Result<(), Failed> {
    disk.sync()
}

pub(crate) fn write_at<D: Disk>(
    rt: &impl Abort,
    disk: &mut D,
    at: u64,
    bytes: &[u8],
) -> Result<(), Failed> {
    assert!(rt; at <= disk.len());
    assert!(rt; bytes.len() as u64 <= LONGEST_WRITE);
    disk.write_at(at, bytes)
}

pub(crate) fn cut<D: Disk>(rt: &impl Abort, disk: &mut D, len: u64) -> Result<(), Failed> {
    assert!(rt; len <= disk.len());
    disk.cut(len)
}

/// What two reads of the file answer, while it is open as input once more.
pub(crate) fn read_twice<R: Room>(
    room: &mut R,
    name: &str,
    buffer: &mut [u8; 8],
) -> Result<[Result<usize, Failed>; 2], Failed>
    requires { (R.seen room.old).open_as name.now ≡ None }
    ensures { (n : List ℕ) → (R.seen room.new).open_as n ≡ (R.seen room.old).open_as n }
{
    let mut first = room.open_in(name)?;
    match room.open_in(name) {
        Ok(second) => {
            let answers = [first.read(buffer), first.read(buffer)];
            room.close_in(name, first);
            room.close_in(name, second);
            Ok(answers)
        }
        Err(fault) => {
            room.close_in(name, first);
            Err(fault)
        }
    }
}

/// What one write to the file, begun anew, and its close answer. None where it isn't opened.
pub(crate) fn write<R: Room>(room: &mut R, name: &str, piece: &[u8]) -> Option<Result<(), Failed>>
    requires { (R.seen room.old).open_as name.now ≡ None }
    ensures { (R.seen room.new).open_as name.now ≡ None }
{
    let mut output = room.open_out(name).ok()?;
    let answer = output.write_all(piece);
    match room.close_out(name, output) {
        Ok(()) => Some(answer),
        Err(Failed) => Some(Err(Failed)),
    }
}

/// What one write to an output answers that is given up. None where it isn't opened.
pub(crate) fn give_up<R: Room>(room: &mut R, name: &str, piece: &[u8]) -> Option<Result<(), Failed>>
    requires { (R.seen room.old).open_as name.now ≡ None }
    ensures { (R.seen room.new).open_as name.now ≡ None }
{
    let mut output = room.open_out(name).ok()?;
    let answer = output.write_all(piece);
    room.give_up_out(name, output);
    Some(answer)
}

/// What one write at the start of the log answers. None where it isn't opened.
pub(crate) fn write_log<R: Room>(
    room: &mut R,
    name: &str,
    bytes: &[u8],
) -> Option<Result<(), Failed>>
    requires closed { (R.seen room.old).open_as name.now ≡ None }
    requires at_most { length bytes.now ≤ longest_write }
    ensures { (R.seen room.new).open_as name.now ≡ None }
{
    let mut log = room.open_log(name).ok()?;
    let answer = log.write_at(0, bytes);
    room.close_log(name, log);
    Some(answer)
}

pub(crate) fn opens_input<R: Room>(room: &mut R, name: &str) -> bool
    requires { (R.seen room.old).open_as name.now ≡ None }
    ensures { (R.seen room.new).open_as name.now ≡ None }
{
    match room.open_in(name) {
        Ok(input) => {
            room.close_in(name, input);
            true
        }
        Err(Failed) => false,
    }
}

pub(crate) fn opens_output<R: Room>(room: &mut R, name: &str) -> bool
    requires { (R.seen room.old).open_as name.now ≡ None }
    ensures { (R.seen room.new).open_as name.now ≡ None }
{
    write(room, name, b"").is_some()
}

pub(crate) fn opens_log<R: Room>(room: &mut R, name: &str) -> bool
    requires { (R.seen room.old).open_as name.now ≡ None }
    ensures { (R.seen room.new).open_as name.now ≡ None }
{
    write_log(room, name, b"").is_some()
}
