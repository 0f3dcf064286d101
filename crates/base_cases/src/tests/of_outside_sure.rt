ghost use Rattle.std.specs.Prelude.{◌≡◌, None, IfOk};
ghost use Rattle.outside_sure.specs.SureRoom.{sure_room_view};

use super::steps::{
    assert_read, cut, give_up, len, opens_input, opens_log, opens_output, read_twice, sync, write,
    write_at, write_log,
};
use outside::{Disk, Failed, Room, Sink};
use outside_sure::{SureDisk, SureRoom, SureSink, SureSource};
use std::alloc::Global;
use std::process::Abort;
use std::test::Fail;

#[test]
fn a_sure_source_gives_all_that_the_buffer_takes(rt: HostRuntime) -> Result<(), Fail> {
    let mut source = SureSource::new(b"hello world");
    let mut buffer = [0; 8];
    assert_read(&rt, &mut source, &mut buffer, Ok(8), b"hello wo", 3);
    assert_read(&rt, &mut source, &mut buffer, Ok(3), b"rldlo wo", 0);
    assert_read(&rt, &mut source, &mut buffer, Ok(0), b"rldlo wo", 0);
    Ok(())
}

fn assert_written(
    rt: &impl Abort,
    sink: &mut SureSink<5>,
    piece: &[u8],
    answer: Result<(), Failed>,
    faults: u64,
) {
    assert_eq!(rt; sink.write_all(piece), answer);
    assert_eq!(rt; sink.faults(), faults);
}

#[test]
fn a_sure_sink_fills_up_and_fails(rt: HostRuntime) -> Result<(), Fail> {
    let mut sink = SureSink::<5>::new(rt.alloc())?;
    assert_written(&rt, &mut sink, b"one", Ok(()), 0);
    assert_written(&rt, &mut sink, b"two", Err(Failed), 1);
    assert_written(&rt, &mut sink, b"", Ok(()), 1);
    assert_written(&rt, &mut sink, b"!", Err(Failed), 2);
    assert_eq!(rt; sink.bytes(), b"onetw".as_slice());
    Ok(())
}

fn assert_written_at(
    rt: &impl Abort,
    disk: &mut SureDisk<5>,
    at: u64,
    bytes: &[u8],
    answer: Result<(), Failed>,
    content: &[u8],
) {
    assert_eq!(rt; write_at(rt, disk, at, bytes), answer);
    assert_eq!(rt; disk.bytes(), content);
}

// Reads the last two of five bytes.
fn assert_read_at(rt: &impl Abort, disk: &mut SureDisk<5>) {
    let mut buffer = [0; 8];
    assert_eq!(rt; disk.read_at(3, &mut buffer), Ok(2));
    assert_eq!(rt; buffer, *b"fg\0\0\0\0\0\0");
}

#[test]
fn a_sure_disk_fills_up_and_stays_so(rt: HostRuntime) -> Result<(), Fail> {
    let mut disk = SureDisk::<5>::new(rt.alloc(), b"abc")?;
    assert_written_at(&rt, &mut disk, 1, b"XY", Ok(()), b"aXY");
    assert_written_at(&rt, &mut disk, 3, b"d", Ok(()), b"aXYd");
    assert_written_at(&rt, &mut disk, 2, b"efgh", Err(Failed), b"aXefg");
    assert_written_at(&rt, &mut disk, 0, b"b", Err(Failed), b"aXefg");
    assert_written_at(&rt, &mut disk, 5, b"", Err(Failed), b"aXefg");
    assert_eq!(rt; len(&disk), 5);
    assert_eq!(rt; cut(&rt, &mut disk, 2), Err(Failed));
    assert_eq!(rt; sync(&mut disk), Ok(()));
    assert_read_at(&rt, &mut disk);
    assert_eq!(rt; disk.faults(), 4);
    Ok(())
}

#[test]
fn a_sure_disk_is_cut(rt: HostRuntime) -> Result<(), Fail> {
    let mut disk = SureDisk::<5>::new(rt.alloc(), b"abc")?;
    assert_eq!(rt; cut(&rt, &mut disk, 2), Ok(()));
    assert_eq!(rt; disk.bytes(), b"ab".as_slice());
    Ok(())
}

// A room with this input.
fn given(alloc: Global, name: &str, bytes: &'static [u8]) -> Result<SureRoom<'static, 4>, Fail>
    ensures { IfOk result (λ room. (sure_room_view room).open_as name.now ≡ None) }
{
    let mut room = SureRoom::new(alloc);
    room.give(name, bytes)?;
    Ok(room)
}

// A room with this drawer, and an input.
fn with_drawer(alloc: Global, name: &str) -> Result<SureRoom<'static, 4>, Fail>
    ensures { IfOk result (λ room. (sure_room_view room).open_as name.now ≡ None) }
{
    let mut room = given(alloc, "in", b"bytes")?;
    room.make_drawer(name, None)?;
    Ok(room)
}

// Whether the file is told as such.
fn has(room: &SureRoom<'static, 4>, name: &str, bytes: &[u8]) -> bool {
    room.file(name) == Some(bytes)
}

// Whether a log has these bytes when it is opened.
fn has_log(room: &mut SureRoom<'static, 4>, name: &str, bytes: &[u8]) -> Result<bool, Fail>
    requires { (sure_room_view room.old).open_as name.now ≡ None }
{
    let log = room.open_log(name)?;
    Ok(log.bytes() == bytes)
}

#[test]
fn a_sure_room_opens_an_input_again_and_again(rt: HostRuntime) -> Result<(), Fail> {
    let mut room = given(rt.alloc(), "in", b"bytes")?;
    assert!(rt; read_twice(&mut room, "in", &mut [0; 8])? == [Ok(5), Ok(0)]);
    assert!(rt; !opens_output(&mut room, "in"));
    assert!(rt; !opens_log(&mut room, "in"));
    assert!(rt; has(&room, "in", b"bytes"));
    Ok(())
}

#[test]
fn a_sure_room_opens_no_name_that_it_lacks(rt: HostRuntime) -> Result<(), Fail> {
    let mut room = SureRoom::<4>::new(rt.alloc());
    assert!(rt; !opens_input(&mut room, "none"));
    assert!(rt; !opens_output(&mut room, "none"));
    assert!(rt; !opens_log(&mut room, "none"));
    Ok(())
}

/// It is no input. An output that fails leaves it as it was, and it is opened again.
#[test]
fn a_drawer_is_written_whole_or_not_at_all(rt: HostRuntime) -> Result<(), Fail> {
    let mut room = with_drawer(rt.alloc(), "out")?;
    assert!(rt; !opens_input(&mut room, "out"));
    assert!(rt; write(&mut room, "out", b"four") == Some(Ok(())));
    assert!(rt; has(&room, "out", b"four"));
    assert!(rt; write(&mut room, "out", b"fives") == Some(Err(Failed)));
    assert!(rt; has(&room, "out", b"four"));
    assert!(rt; give_up(&mut room, "out", b"more") == Some(Ok(())));
    assert!(rt; has(&room, "out", b"four"));
    assert!(rt; opens_log(&mut room, "out"));
    assert!(rt; write(&mut room, "out", b"new") == Some(Ok(())));
    assert!(rt; has(&room, "out", b"new"));
    Ok(())
}

/// A log that fails fills its drawer, which isn't opened again.
#[test]
fn a_drawer_is_filled_up_by_its_log(rt: HostRuntime) -> Result<(), Fail> {
    let mut room = with_drawer(rt.alloc(), "log")?;
    assert!(rt; write_log(&mut room, "log", b"fives") == Some(Err(Failed)));
    assert!(rt; has(&room, "log", b"five"));
    assert!(rt; !opens_output(&mut room, "log"));
    assert!(rt; !opens_log(&mut room, "log"));
    assert!(rt; has(&room, "log", b"five"));
    Ok(())
}

#[test]
fn a_drawer_keeps_its_log(rt: HostRuntime) -> Result<(), Fail> {
    let mut room = with_drawer(rt.alloc(), "log")?;
    assert!(rt; write_log(&mut room, "log", b"abc") == Some(Ok(())));
    assert!(rt; has(&room, "log", b"abc"));
    assert!(rt; has_log(&mut room, "log", b"abc")?);
    Ok(())
}
