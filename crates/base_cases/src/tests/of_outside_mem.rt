ghost use Rattle.std.specs.Prelude.{◌≡◌, None, OnOk};
ghost use Rattle.outside_mem.specs.Room.{room_view};

use super::steps::{
    assert_read, give_up, len, opens_input, opens_log, read_twice, sync, write, write_all, write_at,
};
use outside::{Failed, FileCounts, Note, Notes, Progress, RefusedPiece, Room, Sink, Source};
use outside_mem::{MemDisk, MemNotes, MemRoom, MemSink, MemSource};
use std::alloc::Global;
use std::process::Abort;
use std::test::Fail;

#[test]
fn a_source_gives_chunks_and_fails_at_listed_calls(rt: HostRuntime) -> Result<(), Fail> {
    let alloc = rt.alloc();
    let bytes = b"hello world".to_vec(alloc)?;
    let mut source = MemSource::new(bytes, 4, [1].to_vec(alloc)?);
    assert_eq!(rt; source.remaining(), 11);
    let mut buffer = [0; 8];
    assert_read(&rt, &mut source, &mut buffer, Ok(4), b"hell\0\0\0\0", 7);
    assert_read(
        &rt,
        &mut source,
        &mut buffer,
        Err(Failed),
        b"hell\0\0\0\0",
        7,
    );
    assert_read(&rt, &mut source, &mut buffer, Ok(4), b"o wo\0\0\0\0", 3);
    assert_read(&rt, &mut source, &mut buffer, Ok(3), b"rldo\0\0\0\0", 0);
    assert_read(&rt, &mut source, &mut buffer, Ok(0), b"rldo\0\0\0\0", 0);
    assert_eq!(rt; source.faults(), 1);
    Ok(())
}

#[test]
fn a_sink_writes_nothing_at_a_listed_call(rt: HostRuntime) -> Result<(), Fail> {
    let alloc = rt.alloc();
    let mut sink = MemSink::new(alloc, [1, 3].to_vec(alloc)?);
    assert_eq!(rt; write_all(&mut sink, b"one"), Ok(()));
    assert_eq!(rt; write_all(&mut sink, b"two"), Err(Failed));
    assert_eq!(rt; write_all(&mut sink, b" three"), Ok(()));
    assert_eq!(rt; sink.bytes(), b"one three".as_slice());
    assert_eq!(rt; sink.faults(), 1);
    Ok(())
}

fn put(alloc: Global, room: &mut MemRoom, name: &str, bytes: &[u8]) -> Result<(), Fail>
    requires { (room_view room.old).open_as name.now ≡ None }
    ensures { OnOk result ((room_view room.new).open_as name.now ≡ None) }
{
    room.put(name, bytes.to_vec(alloc)?)?;
    Ok(())
}

fn fail(room: &mut MemRoom, name: &str, call: u64) -> Result<(), Fail>
    requires { (room_view room.old).open_as name.now ≡ None }
    ensures { OnOk result ((room_view room.new).open_as name.now ≡ None) }
{
    room.fail(name, call)?;
    Ok(())
}

fn fail_opening(room: &mut MemRoom, name: &str) -> Result<(), Fail>
    requires { (room_view room.old).open_as name.now ≡ None }
    ensures { OnOk result ((room_view room.new).open_as name.now ≡ None) }
{
    room.fail_opening(name)?;
    Ok(())
}

// Whether the file is told as such.
fn has(room: &MemRoom, name: &str, bytes: &[u8]) -> bool {
    room.file(name) == Some(bytes)
}

// Whether a file that is written is told only when it is closed.
fn is_told_when_closed(room: &mut MemRoom, name: &str, bytes: &[u8]) -> Result<bool, Fail>
    requires { (room_view room.old).open_as name.now ≡ None }
{
    let mut sink = room.open_out(name)?;
    sink.write_all(bytes)?;
    let is_told = room.file(name).is_some();
    room.close_out(name, sink)?;
    Ok(!is_told && has(room, name, bytes))
}

#[test]
fn a_room_keeps_what_is_closed(rt: HostRuntime) -> Result<(), Fail> {
    let mut room = MemRoom::new(rt.alloc());
    assert!(rt; is_told_when_closed(&mut room, "out", b"more")?);
    Ok(())
}

#[test]
fn an_output_is_whole_or_not_at_all(rt: HostRuntime) -> Result<(), Fail> {
    let alloc = rt.alloc();
    let mut room = MemRoom::new(alloc);
    put(alloc, &mut room, "out", b"old")?;
    assert!(rt; give_up(&mut room, "out", b"new") == Some(Ok(())));
    assert!(rt; has(&room, "out", b"old"));
    fail(&mut room, "out", 1)?;
    assert!(rt; write(&mut room, "out", b"new") == Some(Err(Failed)));
    assert!(rt; has(&room, "out", b"old"));
    fail(&mut room, "out", 0)?;
    assert!(rt; write(&mut room, "out", b"new") == Some(Err(Failed)));
    assert!(rt; has(&room, "out", b"old"));
    Ok(())
}

#[test]
fn notes_are_kept_as_lines(rt: HostRuntime) -> Result<(), Fail> {
    let mut notes = MemNotes::new(rt.alloc());
    notes.tell(&Note::Refused(RefusedPiece {
        file: "a.mrc",
        ordinal: 2,
        offset: 40,
        details: "bad leader",
    }));
    notes.tell(&Note::Counted(FileCounts {
        file: "a.mrc",
        new: 1,
        replaced: 2,
        deleted: 3,
        missed: 4,
    }));
    notes.tell(&Note::Progress(Progress::Opening {
        journal: "j",
        bytes: 5,
        of: 6,
    }));
    assert_eq!(rt; notes.lost(), 0);
    let lines = notes.lines();
    assert_eq!(rt; lines.len(), 3);
    assert_eq!(rt; lines[0].as_str(), "a.mrc: piece 2 at byte 40: bad leader");
    assert_eq!(rt;
        lines[1].as_str(),
        "a.mrc: new 1, replaced 2, deleted 3, deletions of no record 4"
    );
    assert_eq!(rt; lines[2].as_str(), "j: 5 of 6 bytes read");
    Ok(())
}

#[test]
fn a_room_gives_what_is_put_and_fails_where_it_is_told_to(rt: HostRuntime) -> Result<(), Fail> {
    let alloc = rt.alloc();
    let mut room = MemRoom::new(alloc);
    assert!(rt; !opens_input(&mut room, "in"));
    put(alloc, &mut room, "in", b"bytes")?;
    assert!(rt; read_twice(&mut room, "in", &mut [0; 8])? == [Ok(5), Ok(0)]);
    fail(&mut room, "in", 0)?;
    assert!(rt; read_twice(&mut room, "in", &mut [0; 8])? == [Err(Failed), Ok(5)]);
    fail_opening(&mut room, "in")?;
    assert!(rt; !opens_input(&mut room, "in"));
    assert!(rt; has(&room, "in", b"bytes"));
    Ok(())
}

// Makes "OLD new" of the log "old", with a sync between; a room doesn't tell it meanwhile.
fn write_over(rt: &impl Abort, log: &mut MemDisk) {
    assert_eq!(rt; len(log), 3);
    assert_eq!(rt; write_at(rt, log, 3, b" new"), Ok(()));
    assert_eq!(rt; sync(log), Ok(()));
    assert_eq!(rt; write_at(rt, log, 0, b"OLD"), Ok(()));
}

fn close_written(rt: &impl Abort, room: &mut MemRoom, name: &str) -> Result<(), Fail>
    requires { (room_view room.old).open_as name.now ≡ None }
{
    let mut log = room.open_log(name)?;
    write_over(rt, &mut log);
    assert!(rt; room.file(name).is_none());
    room.close_log(name, log);
    Ok(())
}

fn assert_left(
    rt: &impl Abort,
    alloc: Global,
    closed: &MemDisk,
    (moment, choice): (u64, u8),
    image: &[u8],
) -> Result<(), Fail> {
    assert!(rt; moment < closed.moments());
    let left = closed.crash(alloc, moment, choice)?;
    assert_eq!(rt; left.as_slice(), image);
    Ok(())
}

// What crashes leave of the log that was so written.
fn assert_moments(rt: &impl Abort, alloc: Global, closed: &MemDisk) -> Result<(), Fail> {
    assert_eq!(rt; closed.moments(), 4);
    assert_left(rt, alloc, closed, (0, 1), b"old")?;
    assert_left(rt, alloc, closed, (1, 0), b"old")?;
    assert_left(rt, alloc, closed, (2, 0), b"old new")?;
    assert_left(rt, alloc, closed, (3, 0), b"old new")?;
    assert_left(rt, alloc, closed, (3, 2), b"\xFF\xFF\xFF new")
}

#[test]
fn a_room_keeps_a_closed_log_with_its_moments(rt: HostRuntime) -> Result<(), Fail> {
    let alloc = rt.alloc();
    let mut room = MemRoom::new(alloc);
    put(alloc, &mut room, "log", b"old")?;
    close_written(&rt, &mut room, "log")?;
    assert!(rt; has(&room, "log", b"OLD new"));
    match room.log_of("log") {
        Some(closed) => assert_moments(&rt, alloc, closed),
        None => panic!(rt; "no closed log"),
    }
}

// Whether a sync that is to fail does, behind a write that doesn't.
fn fails_once(rt: &impl Abort, log: &mut MemDisk) {
    assert_eq!(rt; write_at(rt, log, 0, b"one"), Ok(()));
    assert_eq!(rt; sync(log), Err(Failed));
    assert_eq!(rt; log.faults(), 1);
}

fn close_failed(rt: &impl Abort, room: &mut MemRoom, name: &str) -> Result<(), Fail>
    requires { (room_view room.old).open_as name.now ≡ None }
    ensures { OnOk result ((room_view room.new).open_as name.now ≡ None) }
{
    let mut log = room.open_log(name)?;
    fails_once(rt, &mut log);
    room.close_log(name, log);
    Ok(())
}

#[test]
fn a_log_fails_where_it_is_told_to(rt: HostRuntime) -> Result<(), Fail> {
    let alloc = rt.alloc();
    let mut room = MemRoom::new(alloc);
    fail(&mut room, "log", 1)?;
    close_failed(&rt, &mut room, "log")?;
    fail_opening(&mut room, "log")?;
    assert!(rt; !opens_log(&mut room, "log"));
    assert!(rt; has(&room, "log", b"one"));
    assert!(rt; room.log_of("log").is_some());
    put(alloc, &mut room, "log", b"two")?;
    assert!(rt; room.log_of("log").is_none());
    Ok(())
}
