//! That files are held, which no clause can say, since none sees a file.
ghost use Rattle.std.specs.Prelude.{◌≡◌, ℕ, List, None, IfOk};
ghost use Rattle.outside_real.specs.View.{file_room_view};

use super::{has, joined, make, own_number, path_of, remove};
use crate::tests::steps::{len, opens_input, opens_log, opens_output, read_twice, write_all};
use outside::{Failed, Room};
use outside_real::FileRoom;
use std::fs;
use std::os::unix::fs::symlink;
use std::process::Abort;
use std::test::Fail;

// A room in which no name is open.
fn room_of(rt: &HostRuntime) -> Result<FileRoom<HostRuntime>, Fail>
    ensures { IfOk result (λ room. (n : List ℕ) → (file_room_view room).open_as n ≡ None) }
{
    Ok(FileRoom::new(rt.clone()?, rt.alloc(), own_number(rt), false))
}

// Whether a log that one room opens can't be opened by another, as a log, as an input, and behind its closing as an output.
fn is_held_as_each(rt: &HostRuntime, path: &str) -> Result<bool, Fail> {
    let mut room = room_of(rt)?;
    let mut other = room_of(rt)?;
    let log = room.open_log(path)?;
    let is_opened = opens_log(&mut other, path) || opens_input(&mut other, path);
    room.close_log(path, log);
    Ok(!is_opened && !opens_output(&mut other, path))
}

// The log is as long as it was, when the room that has it open is dropped.
fn len_in_a_dropped_room(rt: &HostRuntime, path: &str) -> Result<u64, Fail> {
    let mut room = room_of(rt)?;
    let log = room.open_log(path)?;
    Ok(len(&log))
}

#[test]
fn a_log_is_held_until_its_room_is_dropped(rt: HostRuntime) -> Result<(), Fail> {
    let path = path_of(&rt, "held-log")?;
    make(&rt, path.as_str(), b"log")?;
    assert!(rt; is_held_as_each(&rt, &path)?);
    assert!(rt; len_in_a_dropped_room(&rt, path.as_str())? == 3);
    remove(&rt, path.as_str())
}

// Whether no further room can open that as an output.
fn is_held(rt: &HostRuntime, name: &str) -> Result<bool, Fail> {
    let mut other = room_of(rt)?;
    Ok(!opens_output(&mut other, name))
}

// Whether no room can open that as an output while another has the log open.
fn is_held_as(rt: &HostRuntime, path: &str, name: &str) -> Result<bool, Fail> {
    let mut room = room_of(rt)?;
    let log = room.open_log(path)?;
    let held = is_held(rt, name);
    room.close_log(path, log);
    held
}

fn is_held_by_hard_link(rt: &HostRuntime, path: &str) -> Result<bool, Fail> {
    let link = path_of(rt, "held-hard-link")?;
    fs::hard_link(rt, path, link.as_str())?;
    let is_held = is_held_as(rt, path, link.as_str())?;
    remove(rt, link.as_str())?;
    Ok(is_held)
}

fn is_held_by_symbolic_link(rt: &HostRuntime, path: &str) -> Result<bool, Fail> {
    let link = path_of(rt, "held-symbolic-link")?;
    symlink(rt, path, link.as_str())?;
    let is_held = is_held_as(rt, path, link.as_str())?;
    remove(rt, link.as_str())?;
    Ok(is_held)
}

#[test]
fn an_output_is_no_open_log_by_another_name(rt: HostRuntime) -> Result<(), Fail> {
    let path = path_of(&rt, "held-file")?;
    make(&rt, path.as_str(), b"log")?;
    assert!(rt; is_held_by_hard_link(&rt, path.as_str())?);
    assert!(rt; is_held_by_symbolic_link(&rt, path.as_str())?);
    assert!(rt; has(&rt, path.as_str(), b"log")?);
    remove(&rt, path.as_str())
}

// An input that was read and closed is no output by another name.
fn assert_held_when_read<R: Room>(rt: &impl Abort, room: &mut R, path: &str, other: &str)
    requires closed { (R.seen room.old).open_as path.now ≡ None }
    requires other { (R.seen room.old).open_as other.now ≡ None }
{
    assert!(rt; read_twice(room, path, &mut [0; 8]) == Ok([Ok(5), Ok(0)]));
    assert!(rt; !opens_output(room, other));
}

#[test]
fn an_output_is_no_input_that_was_closed(rt: HostRuntime) -> Result<(), Fail> {
    let path = path_of(&rt, "held-input")?;
    let other = joined(rt.alloc(), &["/.", path.as_str()])?;
    make(&rt, path.as_str(), b"input")?;
    let mut room = room_of(&rt)?;
    assert_held_when_read(&rt, &mut room, &path, &other);
    assert!(rt; has(&rt, path.as_str(), b"input")?);
    remove(&rt, path.as_str())
}

// Whether two rooms have that open as an output, and close it.
fn is_shared(
    first: &mut FileRoom<HostRuntime>,
    second: &mut FileRoom<HostRuntime>,
    name: &str,
) -> Result<bool, Failed>
    requires first { (file_room_view first.old).open_as name.now ≡ None }
    requires second { (file_room_view second.old).open_as name.now ≡ None }
{
    let mut output = first.open_out(name)?;
    let other = second.open_out(name)?;
    let written = write_all(&mut output, b"piece");
    let closed = first.close_out(name, output);
    Ok(written.is_ok() && closed.is_ok() && second.close_out(name, other).is_ok())
}

#[test]
fn a_device_is_held_by_nobody(rt: HostRuntime) -> Result<(), Fail> {
    let mut first = room_of(&rt)?;
    let mut second = room_of(&rt)?;
    assert!(rt; is_shared(&mut first, &mut second, "/dev/null")?);
    Ok(())
}
