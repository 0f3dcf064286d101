ghost use Rattle.std.specs.Prelude.{◌≡◌, ◌<◌, None};

use super::steps::{
    assert_read, cut, len, opens_input, opens_log, read, read_twice, sync, write, write_all,
    write_at, write_log,
};
use outside::{Disk, Failed, Room};
use outside_real::{FileDisk, FileRoom, FileSink, FileSource, LONGEST_INPUT};
use std::alloc::Global;
use std::fs::{File, OpenOptions};
use std::process::Abort;
use std::test::Fail;
use std::{env, fs, process};

mod holding;
mod slips;
mod whole;

// Each of these stands behind a function without a clause, so that a test's proof needn't know what the system's calls say.
fn joined(alloc: Global, parts: &[&str]) -> Result<String, Fail> {
    let mut text = String::new(alloc);
    for part in parts {
        text.push_str(part)?;
    }
    Ok(text)
}

fn own_number(rt: &HostRuntime) -> u32 {
    process::id(rt.process())
}

// The digits of the process's number, the last first.
fn own_digits(rt: &HostRuntime) -> Result<String, Fail> {
    let mut digits = String::new(rt.alloc());
    let mut number = own_number(rt);
    for _ in 0..10 {
        digits.push((b'0' + (number % 10) as u8) as char)?;
        number /= 10;
    }
    Ok(digits)
}

// A path among the temporary files that no other run of the tests has.
fn path_of(rt: &HostRuntime, name: &str) -> Result<String, Fail> {
    let folder = env::temp_dir(rt)?;
    let digits = own_digits(rt)?;
    joined(
        rt.alloc(),
        &[folder.as_str(), "/union_cat-", name, "-", digits.as_str()],
    )
}

fn make(rt: &HostRuntime, path: &str, bytes: &[u8]) -> Result<(), Fail> {
    Ok(fs::write(rt, path, bytes)?)
}

fn remove(rt: &HostRuntime, path: &str) -> Result<(), Fail> {
    Ok(fs::remove_file(rt, path)?)
}

fn has(rt: &HostRuntime, path: &str, bytes: &[u8]) -> Result<bool, Fail> {
    let found = fs::read(rt, path)?;
    Ok(found.as_slice() == bytes)
}

fn source_of(rt: &HostRuntime, path: &str) -> Result<FileSource<File>, Fail> {
    Ok(FileSource::new(File::open(rt, path)?, LONGEST_INPUT))
}

fn faults_of_source(source: &FileSource<File>) -> u64 {
    source.faults()
}

// A source of that file, which is removed.
fn last_source_of(rt: &HostRuntime, path: &str) -> Result<FileSource<File>, Fail> {
    let source = source_of(rt, path)?;
    remove(rt, path)?;
    Ok(source)
}

#[test]
fn a_source_gives_the_bytes_of_a_file(rt: HostRuntime) -> Result<(), Fail> {
    let path = path_of(&rt, "source")?;
    make(&rt, path.as_str(), b"bytes")?;
    let mut source = last_source_of(&rt, path.as_str())?;
    let mut buffer = [0; 4];
    let left = LONGEST_INPUT;
    assert_read(&rt, &mut source, &mut buffer, Ok(4), b"byte", left - 4);
    assert_read(&rt, &mut source, &mut buffer, Ok(1), b"syte", left - 5);
    assert_read(&rt, &mut source, &mut buffer, Ok(0), b"syte", left - 5);
    assert!(rt; faults_of_source(&source) == 0);
    Ok(())
}

#[test]
fn a_folder_is_no_source(rt: HostRuntime) -> Result<(), Fail> {
    let folder = env::temp_dir(&rt)?;
    let mut source = source_of(&rt, folder.as_str())?;
    assert!(rt; read(&mut source, &mut [0; 4]) == Err(Failed));
    assert!(rt; faults_of_source(&source) == 1);
    Ok(())
}

fn gathering(alloc: Global, file: File) -> FileSink<File> {
    FileSink::gathering(alloc, file)
}

fn flush(sink: &mut FileSink<File>) -> Result<(), Failed> {
    sink.flush()
}

fn faults_of_sink(sink: &FileSink<File>) -> u64 {
    sink.faults()
}

// Whether both pieces are gathered and written.
fn writes(sink: &mut FileSink<File>, first: &[u8], second: &[u8]) -> bool {
    write_all(sink, first).is_ok() && write_all(sink, second).is_ok() && flush(sink).is_ok()
}

fn writes_to(rt: &HostRuntime, path: &str, first: &[u8], second: &[u8]) -> Result<bool, Fail> {
    let mut sink = gathering(rt.alloc(), File::create(rt, path)?);
    Ok(writes(&mut sink, first, second))
}

#[test]
fn a_sink_gathers_and_writes(rt: HostRuntime) -> Result<(), Fail> {
    let path = path_of(&rt, "sink")?;
    assert!(rt; writes_to(&rt, path.as_str(), b"one", b" two")?);
    assert!(rt; has(&rt, path.as_str(), b"one two")?);
    remove(&rt, path.as_str())
}

// More bytes than a sink or a source has in memory, of which no two neighbours are alike.
fn many_bytes(alloc: Global) -> Result<Vec<u8>, Fail> {
    let mut bytes = Vec::new(alloc);
    for number in 0..300_000u32 {
        bytes.push((number % 251) as u8)?;
    }
    Ok(bytes)
}

// Whether the bytes are gathered in pieces of that length, and written.
fn writes_pieces(rt: &HostRuntime, path: &str, bytes: &[u8], len: usize) -> Result<bool, Fail>
    requires { 0 < len }
{
    let mut sink = gathering(rt.alloc(), File::create(rt, path)?);
    for piece in bytes.chunks(len) {
        if write_all(&mut sink, piece).is_err() {
            return Ok(false);
        }
    }
    Ok(flush(&mut sink).is_ok())
}

// The bytes that a source gives in at most so many calls.
fn read_all(rt: &HostRuntime, path: &str, calls: u32) -> Result<Vec<u8>, Fail> {
    let mut source = source_of(rt, path)?;
    let mut all = Vec::new(rt.alloc());
    let mut buffer = [0; 4096];
    for _ in 0..calls {
        let len = read(&mut source, &mut buffer).unwrap_or(0);
        all.extend_from_slice(&buffer[..len.min(4096)])?;
    }
    Ok(all)
}

#[test]
fn a_file_has_all_that_was_gathered(rt: HostRuntime) -> Result<(), Fail> {
    let path = path_of(&rt, "pieces")?;
    let bytes = many_bytes(rt.alloc())?;
    assert!(rt; writes_pieces(&rt, path.as_str(), bytes.as_slice(), 1_000)?);
    assert!(rt; has(&rt, path.as_str(), bytes.as_slice())?);
    assert!(rt; writes_pieces(&rt, path.as_str(), bytes.as_slice(), 150_000)?);
    assert!(rt; read_all(&rt, path.as_str(), 100)? == bytes);
    remove(&rt, path.as_str())
}

fn opened(rt: &HostRuntime, path: &str, how: &OpenOptions) -> Result<File, Fail> {
    Ok(how.open(rt, path)?)
}

#[test]
fn a_sink_fails_where_the_device_is_full(rt: HostRuntime) -> Result<(), Fail> {
    let mut how = OpenOptions::new();
    how.write(true);
    let mut sink = gathering(rt.alloc(), opened(&rt, "/dev/full", &how)?);
    assert!(rt; write_all(&mut sink, b"gathered") == Ok(()));
    assert!(rt; flush(&mut sink) == Err(Failed));
    assert!(rt; faults_of_sink(&sink) == 1);
    assert!(rt; write_all(&mut sink, b"more") == Err(Failed));
    Ok(())
}

// A disk over that file, which is removed.
fn disk_of(rt: &HostRuntime, path: &str) -> Result<FileDisk<HostRuntime>, Fail> {
    let mut how = OpenOptions::new();
    how.read(true).write(true).create(true);
    let disk = FileDisk::new(opened(rt, path, &how)?)?;
    remove(rt, path)?;
    Ok(disk)
}

fn read_at(
    disk: &mut FileDisk<HostRuntime>,
    at: u64,
    buffer: &mut [u8; 8],
) -> Result<usize, Failed> {
    disk.read_at(at, buffer)
}

fn faults_of_disk(disk: &FileDisk<HostRuntime>) -> u64 {
    disk.faults()
}

#[test]
fn a_disk_is_written_cut_and_read(rt: HostRuntime) -> Result<(), Fail> {
    let path = path_of(&rt, "disk")?;
    let mut disk = disk_of(&rt, path.as_str())?;
    assert!(rt; write_at(&rt, &mut disk, 0, b"abcdef") == Ok(()));
    assert!(rt; len(&disk) == 6);
    assert!(rt; write_at(&rt, &mut disk, 2, b"XY") == Ok(()));
    assert!(rt; len(&disk) == 6);
    assert!(rt; cut(&rt, &mut disk, 4) == Ok(()));
    assert!(rt; sync(&mut disk) == Ok(()));
    let mut buffer = [0; 8];
    assert!(rt; read_at(&mut disk, 1, &mut buffer) == Ok(3));
    assert!(rt; buffer == *b"bXY\0\0\0\0\0");
    assert!(rt; read_at(&mut disk, 4, &mut buffer) == Ok(0));
    assert!(rt; faults_of_disk(&disk) == 0);
    Ok(())
}

// A file is opened in each way, and closed.
fn assert_opens_and_closes<R: Room>(rt: &impl Abort, room: &mut R, name: &str)
    requires { (R.seen room.old).open_as name.now ≡ None }
{
    assert!(rt; !opens_input(room, name));
    assert!(rt; opens_log(room, name));
    assert!(rt; write(room, name, b"more") == Some(Ok(())));
    assert!(rt; write_log(room, name, b"M") == Some(Ok(())));
    let mut buffer = [0; 8];
    assert!(rt; read_twice(room, name, &mut buffer) == Ok([Ok(4), Ok(0)]));
    assert!(rt; buffer == *b"More\0\0\0\0");
}

#[test]
fn a_room_opens_and_closes_files(rt: HostRuntime) -> Result<(), Fail> {
    let path = path_of(&rt, "room")?;
    let mut room = FileRoom::new(rt.clone()?, rt.alloc(), own_number(&rt), false);
    assert_opens_and_closes(&rt, &mut room, &path);
    remove(&rt, path.as_str())
}

fn is_there(room: &FileRoom<HostRuntime>, name: &str) -> bool {
    room.is_there(name)
}

// A file is there, and so is a folder; what was removed isn't.
#[test]
fn a_room_finds_what_is_there(rt: HostRuntime) -> Result<(), Fail> {
    let path = path_of(&rt, "there")?;
    let folder = env::temp_dir(&rt)?;
    let room = FileRoom::new(rt.clone()?, rt.alloc(), own_number(&rt), false);
    assert!(rt; !is_there(&room, path.as_str()));
    make(&rt, path.as_str(), b"a")?;
    assert!(rt; is_there(&room, path.as_str()));
    assert!(rt; is_there(&room, folder.as_str()));
    remove(&rt, path.as_str())?;
    assert!(rt; !is_there(&room, path.as_str()));
    Ok(())
}
