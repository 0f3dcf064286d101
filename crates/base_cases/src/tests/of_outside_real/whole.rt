//! That an output is whole or not at all, which no clause can say, since none sees a file.
ghost use Rattle.std.specs.Prelude.{◌≡◌, ℕ, List, None, IfOk};
ghost use Rattle.outside_real.specs.View.{file_room_view};

use super::{has, joined, make, own_number, path_of, remove};
use crate::tests::steps::{give_up, opens_input, opens_output, write, write_all};
use outside::{Failed, Room};
use outside_real::FileRoom;
use std::fs;
use std::fs::{File, OpenOptions};
use std::os::unix::fs::{MetadataExt, PermissionsExt, symlink};
use std::test::Fail;

// A room in which no name is open.
fn room_of(rt: &HostRuntime) -> Result<FileRoom<HostRuntime>, Fail>
    ensures { IfOk result (λ room. (n : List ℕ) → (file_room_view room).open_as n ≡ None) }
{
    Ok(FileRoom::new(rt.clone()?, rt.alloc(), own_number(rt), false))
}

// The name of the new file of an output, of the process with those digits.
fn draft_of(rt: &HostRuntime, path: &str, digits: &str) -> Result<String, Fail> {
    match path.rsplit_once('/') {
        Some((folder, name)) => joined(rt.alloc(), &[folder, "/.", name, ".union_cat.", digits]),
        None => joined(rt.alloc(), &[".", path, ".union_cat.", digits]),
    }
}

fn own_draft(rt: &HostRuntime, path: &str) -> Result<String, Fail> {
    let digits = own_number(rt).to_string(rt.alloc())?;
    draft_of(rt, path, digits.as_str())
}

fn is_there(rt: &HostRuntime, path: &str) -> Result<bool, Fail> {
    Ok(fs::exists(rt, path)?)
}

// Whether the file has the old bytes while an output of it is open, and the new ones when it is closed.
fn is_replaced(rt: &HostRuntime, room: &mut FileRoom<HostRuntime>, path: &str) -> Result<bool, Fail>
    requires { (file_room_view room.old).open_as path.now ≡ None }
{
    let mut output = room.open_out(path)?;
    let written = write_all(&mut output, b"new");
    let old = has(rt, path, b"old")? && is_there(rt, own_draft(rt, path)?.as_str())?;
    let closed = room.close_out(path, output);
    Ok(old && written.is_ok() && closed.is_ok())
}

#[test]
fn an_output_takes_its_file_s_place_when_it_is_closed(rt: HostRuntime) -> Result<(), Fail> {
    let path = path_of(&rt, "whole")?;
    make(&rt, path.as_str(), b"old")?;
    let mut room = room_of(&rt)?;
    assert!(rt; is_replaced(&rt, &mut room, &path)?);
    assert!(rt; has(&rt, path.as_str(), b"new")?);
    assert!(rt; !is_there(&rt, own_draft(&rt, path.as_str())?.as_str())?);
    remove(&rt, path.as_str())
}

// Whether the file can't be opened by another room behind its close, and can by its own.
fn is_held(rt: &HostRuntime, path: &str) -> Result<bool, Fail> {
    let mut room = room_of(rt)?;
    let mut other = room_of(rt)?;
    let written = write(&mut room, path, b"new");
    let others = opens_output(&mut other, path) || opens_input(&mut other, path);
    Ok(written == Some(Ok(())) && !others && opens_input(&mut room, path))
}

#[test]
fn what_took_a_file_s_place_is_held(rt: HostRuntime) -> Result<(), Fail> {
    let path = path_of(&rt, "whole-held")?;
    make(&rt, path.as_str(), b"old")?;
    assert!(rt; is_held(&rt, path.as_str())?);
    assert!(rt; has(&rt, path.as_str(), b"new")?);
    remove(&rt, path.as_str())
}

fn gives_up(rt: &HostRuntime, path: &str) -> Result<Option<Result<(), Failed>>, Fail> {
    let mut room = room_of(rt)?;
    Ok(give_up(&mut room, path, b"new"))
}

#[test]
fn an_output_that_is_given_up_leaves_its_file(rt: HostRuntime) -> Result<(), Fail> {
    let path = path_of(&rt, "given-up")?;
    make(&rt, path.as_str(), b"old")?;
    assert!(rt; gives_up(&rt, path.as_str())? == Some(Ok(())));
    assert!(rt; has(&rt, path.as_str(), b"old")?);
    assert!(rt; !is_there(&rt, own_draft(&rt, path.as_str())?.as_str())?);
    remove(&rt, path.as_str())
}

#[test]
fn a_new_output_that_is_given_up_leaves_none(rt: HostRuntime) -> Result<(), Fail> {
    let path = path_of(&rt, "given-up-new")?;
    assert!(rt; gives_up(&rt, path.as_str())? == Some(Ok(())));
    assert!(rt; !is_there(&rt, path.as_str())?);
    assert!(rt; !is_there(&rt, own_draft(&rt, path.as_str())?.as_str())?);
    Ok(())
}

fn writes(rt: &HostRuntime, path: &str) -> Result<bool, Fail> {
    let mut room = room_of(rt)?;
    Ok(write(&mut room, path, b"new") == Some(Ok(())))
}

fn set_rights(rt: &HostRuntime, path: &str, mode: u32) -> Result<(), Fail> {
    Ok(fs::set_permissions(rt, path, fs::Permissions::from_mode(mode))?)
}

fn rights_of(rt: &HostRuntime, path: &str) -> Result<u32, Fail> {
    let found = fs::metadata(rt, path)?;
    Ok(found.mode() & 0o777)
}

fn is_link(rt: &HostRuntime, path: &str) -> Result<bool, Fail> {
    Ok(fs::symlink_metadata(rt, path)?.is_symlink())
}

#[test]
fn an_output_behind_a_link_takes_its_file_s_place_and_rights(rt: HostRuntime) -> Result<(), Fail> {
    let path = path_of(&rt, "linked")?;
    let link = path_of(&rt, "link")?;
    make(&rt, path.as_str(), b"old")?;
    set_rights(&rt, path.as_str(), 0o640)?;
    symlink(&rt, path.as_str(), link.as_str())?;
    assert!(rt; writes(&rt, link.as_str())?);
    assert!(rt; is_link(&rt, link.as_str())?);
    assert!(rt; has(&rt, path.as_str(), b"new")?);
    assert!(rt; rights_of(&rt, path.as_str())? == 0o640);
    remove(&rt, link.as_str())?;
    remove(&rt, path.as_str())
}

#[test]
fn an_output_with_two_names_keeps_both(rt: HostRuntime) -> Result<(), Fail> {
    let path = path_of(&rt, "two-names")?;
    let other = path_of(&rt, "other-name")?;
    make(&rt, path.as_str(), b"old")?;
    fs::hard_link(&rt, path.as_str(), other.as_str())?;
    assert!(rt; writes(&rt, path.as_str())?);
    assert!(rt; has(&rt, other.as_str(), b"new")?);
    remove(&rt, other.as_str())?;
    remove(&rt, path.as_str())
}

// A file that is held by nobody, and one that is.
fn held(rt: &HostRuntime, path: &str) -> Result<File, Fail> {
    let file = OpenOptions::new().write(true).open(rt, path)?;
    file.lock()?;
    Ok(file)
}

#[test]
fn drafts_are_removed_whose_programs_are_gone(rt: HostRuntime) -> Result<(), Fail> {
    let path = path_of(&rt, "left")?;
    let left = draft_of(&rt, path.as_str(), "4194305")?;
    let own = draft_of(&rt, path.as_str(), "4194306")?;
    let other = draft_of(&rt, path.as_str(), "copy")?;
    make(&rt, left.as_str(), b"left")?;
    make(&rt, own.as_str(), b"held")?;
    make(&rt, other.as_str(), b"other")?;
    let holder = held(&rt, own.as_str())?;
    assert!(rt; writes(&rt, path.as_str())?);
    assert!(rt; !is_there(&rt, left.as_str())?);
    assert!(rt; has(&rt, own.as_str(), b"held")?);
    assert!(rt; has(&rt, other.as_str(), b"other")?);
    drop(holder);
    remove(&rt, own.as_str())?;
    remove(&rt, other.as_str())?;
    remove(&rt, path.as_str())
}
