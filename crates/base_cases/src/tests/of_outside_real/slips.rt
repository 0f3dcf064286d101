//! What a slip of the hand can't do, which no clause can say, since none sees a file.
ghost use Rattle.std.specs.Prelude.{◌≡◌, ℕ, List, None, IfOk};
ghost use Rattle.outside_real.specs.View.{file_room_view};

use super::{has, make, own_number, path_of, remove};
use crate::tests::steps::{opens_log, opens_output};
use outside_real::{FileRoom, Intent};
use std::fs;
use std::test::Fail;

// A room in which no name is open.
fn room_of(rt: &HostRuntime) -> Result<FileRoom<HostRuntime>, Fail>
    ensures { IfOk result (λ room. (n : List ℕ) → (file_room_view room).open_as n ≡ None) }
{
    Ok(FileRoom::new(rt.clone()?, rt.alloc(), own_number(rt), false))
}

// Whether that can't be opened as an output, and has the bytes that it had.
fn is_refused(rt: &HostRuntime, path: &str, bytes: &[u8]) -> Result<bool, Fail> {
    make(rt, path, bytes)?;
    let mut room = room_of(rt)?;
    let refused = !opens_output(&mut room, path);
    let same = has(rt, path, bytes)?;
    remove(rt, path)?;
    Ok(refused && same)
}

#[test]
fn an_output_is_no_journal(rt: HostRuntime) -> Result<(), Fail> {
    let path = path_of(&rt, "slip-output")?;
    assert!(rt; is_refused(&rt, path.as_str(), b"UNIONCAT JNL 02\nC")?);
    assert!(rt; is_refused(&rt, path.as_str(), b"UNIONCAT JNL 01\nO\0\0")?);
    assert!(rt; !is_refused(&rt, path.as_str(), b"UNIONCAT JNL 03\nC")?);
    assert!(rt; !is_refused(&rt, path.as_str(), b"UNIONCAT JNL 02")?);
    Ok(())
}

// Whether a command that has that as its output can open a log.
fn opens_with_output(rt: &HostRuntime, log: &str, output: &str) -> Result<bool, Fail> {
    let mut room = room_of(rt)?;
    let mut outputs = Vec::new(rt.alloc());
    outputs.push(String::from_str(rt.alloc(), output)?)?;
    let mut intent = Intent::none(rt.alloc());
    intent.outputs = outputs;
    room.intend(intent);
    Ok(opens_log(&mut room, log))
}

#[test]
fn a_log_is_opened_only_where_the_outputs_are_no_slips(rt: HostRuntime) -> Result<(), Fail> {
    let log = path_of(&rt, "slip-log")?;
    let output = path_of(&rt, "slip-behind")?;
    make(&rt, log.as_str(), b"log")?;
    make(&rt, output.as_str(), b"UNIONCAT JNL 02\nC")?;
    assert!(rt; !opens_with_output(&rt, log.as_str(), output.as_str())?);
    assert!(rt; !opens_with_output(&rt, log.as_str(), "A=slip.mrc")?);
    assert!(rt; opens_with_output(&rt, log.as_str(), "slip.mrc")?);
    remove(&rt, output.as_str())?;
    remove(&rt, log.as_str())
}

// Whether a file of that name, which isn't there, is made neither as an output nor as a log.
fn is_left_unmade(rt: &HostRuntime, name: &str) -> Result<bool, Fail> {
    let mut room = room_of(rt)?;
    let opened = opens_output(&mut room, name) || opens_log(&mut room, name);
    Ok(!opened && !fs::exists(rt, name)?)
}

#[test]
fn a_library_s_word_makes_no_file(rt: HostRuntime) -> Result<(), Fail> {
    assert!(rt; is_left_unmade(&rt, "ULIB=slip.mrc")?);
    assert!(rt; is_left_unmade(&rt, "A=B=slip.mrc")?);
    Ok(())
}
