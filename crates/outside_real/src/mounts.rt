//! Whether something is mounted at a file's name, as a container's host does with single files.
use std::alloc::{AllocError, Global};
use std::fs::File;
use std::io;
use std::rt::Files;

/// Where the system lists what is mounted.
const MOUNTS: &str = "/proc/self/mountinfo";

/// The place of the name in a line of that list, counted from 0.
const PLACE: usize = 4;

/// Whether something is mounted at the file of that name. Where that can't be told, nothing is.
pub fn is_mount<R: Files<File = File>>(alloc: Global, rt: &R, name: &str) -> bool {
    match listed_name(alloc, rt, name) {
        Ok(name) => is_listed(alloc, rt, &name).unwrap_or(false),
        Err(_) => false,
    }
}

// The name as the list has it, from the root.
fn listed_name<R: Files>(alloc: Global, rt: &R, name: &str) -> io::Result<String> {
    let path = rt.canonicalize(alloc, name)?;
    Ok(escaped(alloc, path.as_str())?)
}

fn is_listed<R: Files<File = File>>(alloc: Global, rt: &R, name: &str) -> io::Result<bool> {
    let list = io::read_to_string(alloc, File::open(rt, MOUNTS)?)?;
    for line in list.as_str().lines() {
        if line.split(' ').nth(PLACE) == Some(name) {
            return Ok(true);
        }
    }
    Ok(false)
}

// The list writes blanks and backslashes by their numbers in octal.
fn escaped(alloc: Global, name: &str) -> Result<String, AllocError> {
    let mut text = String::new(alloc);
    for letter in name.chars() {
        match letter {
            ' ' => text.push_str("\\040")?,
            '\t' => text.push_str("\\011")?,
            '\n' => text.push_str("\\012")?,
            '\\' => text.push_str("\\134")?,
            _ => text.push(letter)?,
        }
    }
    Ok(text)
}
