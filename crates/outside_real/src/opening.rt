//! How files are opened: each is held before anything is read, cut or written.
ghost use Rattle.std.specs.Prelude.{◌≡◌, ◌↔◌, true, false, Err, IsErr};
ghost use Rattle.std.specs.Fs.{asks_truncate, new_options, with_read};
ghost use Rattle.std.specs.declared.fs.locks.TryLockError.TheVariants.{WouldBlock};
ghost use Rattle.outside_real.specs.declared.opening.OpenedAs.TheVariants.{Input};

use crate::cause::Cause;
use crate::slips::{begins_a_journal, is_library_word, sort_of};
use std::alloc::Global;
use std::fs;
use std::fs::{File, OpenOptions, TryLockError};
use std::io::{ErrorKind, Read};
use std::os::unix::fs::{FileExt, MetadataExt};
use std::rt::Files;

/// What a file is opened as.
#[derive(Clone, Copy, Debug, PartialEq, Eq)]
pub enum OpenedAs {
    Input,
    /// As an input that isn't held, and that another may have.
    Look,
    Output,
    Log,
}

/// How many bytes a journal's format line has.
const LINE: usize = 16;

/// Opens the file of that name and holds it: an input shared, others alone, and one that is only looked at not at all. It has the
/// bytes that it had. A new file isn't made under a name that has the form of a library's word.
pub fn opened<R: Files<File = File>>(rt: &R, name: &str, sort: OpenedAs) -> Result<File, Cause> {
    if sort == OpenedAs::Look {
        return opened_with(rt, name, OpenedAs::Input, &options(OpenedAs::Input));
    }
    if sort != OpenedAs::Input && is_library_word(name) && is_missing(rt, name) {
        return Err(Cause::LibraryWord);
    }
    let file = opened_with(rt, name, sort, &options(sort))?;
    hold(&file, sort)?;
    if sort == OpenedAs::Output && !has_name(rt, name, &file) {
        return Err(Cause::InUse);
    }
    Ok(file)
}

// Whether the file still has that name. Another command may have put an output in its place before it was held.
fn has_name<R: Files<File = File>>(rt: &R, name: &str, file: &File) -> bool {
    match (fs::metadata(rt, name), file.metadata()) {
        (Ok(named), Ok(found)) => named.dev() == found.dev() && named.ino() == found.ino(),
        _ => false,
    }
}

/// Whether there is no file of that name.
pub fn is_missing<R: Files<File = File>>(rt: &R, name: &str) -> bool {
    matches!(fs::exists(rt, name), Ok(false))
}

/// Whether what has that name gives its bytes once alone, since it is no regular file: a pipe, or a device.
pub fn gives_once<R: Files<File = File>>(rt: &R, name: &str) -> bool {
    match fs::metadata(rt, name) {
        Ok(found) => !found.is_file(),
        Err(_) => false,
    }
}

/// Whether a regular file of that name begins with a journal's format line. It is read by an opening of its own; one that can't be read is
/// refused, since it may be a journal.
pub fn is_journal<R: Files<File = File>>(rt: &R, name: &str) -> Result<bool, Cause> {
    match front_of(rt, name)? {
        Some(line) => Ok(begins_a_journal(&line)),
        None => Ok(false),
    }
}

/// What a regular file of that name is that is to be read as MARC, where its first bytes show that it is something else.
pub fn foreign_sort<R: Files<File = File>>(rt: &R, name: &str) -> Option<&'static str> {
    match front_of(rt, name) {
        Ok(Some(front)) => sort_of(&front),
        _ => None,
    }
}

// The first bytes of a regular file, by an opening of its own; none of one that has fewer.
fn front_of<R: Files<File = File>>(rt: &R, name: &str) -> Result<Option<[u8; LINE]>, Cause> {
    match fs::metadata(rt, name) {
        Ok(found) if found.is_file() && found.len() >= LINE as u64 => {}
        _ => return Ok(None),
    }
    let mut file = opened_with(rt, name, OpenedAs::Input, &options(OpenedAs::Input))?;
    Ok(Some(first_line(&mut file)?))
}

/// The bytes of a regular file from a place on, at most so many, by an opening of its own; none where they can't be had.
pub fn bytes_at<R: Files<File = File>>(
    alloc: Global,
    rt: &R,
    name: &str,
    place: u64,
    most: usize,
) -> Option<Vec<u8>> {
    match fs::metadata(rt, name) {
        Ok(found) if found.is_file() => {}
        _ => return None,
    }
    let file = opened_with(rt, name, OpenedAs::Input, &options(OpenedAs::Input)).ok()?;
    let mut bytes = Vec::new(alloc);
    bytes.resize(most, 0).ok()?;
    let count = file.read_at(bytes.as_mut_slice(), place).ok()?;
    bytes.truncate(count);
    Some(bytes)
}

// The first bytes of a file, as many as a format line has.
fn first_line(file: &mut File) -> Result<[u8; LINE], Cause> {
    let mut line = [0; LINE];
    match file.read_exact(&mut line) {
        Ok(()) => Ok(line),
        Err(error) => Err(Cause::of(&error)),
    }
}

/// Takes the bytes of a held output off. A file that isn't regular has none to be taken.
pub fn emptied(file: &File) -> Result<(), Cause> {
    if !is_regular(file)? {
        return Ok(());
    }
    match file.set_len(0) {
        Ok(()) => Ok(()),
        Err(error) => Err(Cause::of(&error)),
    }
}

/// Has the system keep what a file was given. A file that isn't regular keeps nothing.
pub fn synced(file: &File) -> Result<(), Cause> {
    if !is_regular(file)? {
        return Ok(());
    }
    match file.sync_all() {
        Ok(()) => Ok(()),
        Err(error) => Err(Cause::of(&error)),
    }
}

// The one call of the system that opens an input, an output or a log.
fn opened_with<R: Files<File = File>>(
    rt: &R,
    name: &str,
    sort: OpenedAs,
    how: &OpenOptions,
) -> Result<File, Cause>
    // No opening cuts a file, since another may hold it. An input is opened to be read, so it is neither made nor written.
    requires uncut { asks_truncate how.now ≡ false }
    requires only_read { sort ≡ Input → how.now ≡ with_read new_options true }
{
    match how.open(rt, name) {
        Ok(file) => Ok(file),
        // A file that can be made is missing only where its folder is.
        Err(error) if error.kind() == ErrorKind::NotFound && sort != OpenedAs::Input => {
            Err(Cause::NoSuchFolder)
        }
        Err(error) => Err(Cause::of(&error)),
    }
}

fn options(sort: OpenedAs) -> OpenOptions
    ensures uncut { asks_truncate result ≡ false }
    ensures only_read { sort ≡ Input → result ≡ with_read new_options true }
{
    let mut how = OpenOptions::new();
    match sort {
        OpenedAs::Input | OpenedAs::Look => how.read(true),
        OpenedAs::Output => how.write(true).create(true),
        OpenedAs::Log => how.read(true).write(true).create(true),
    };
    how
}

/// Holds a file that was just made.
pub fn hold_alone(file: &File) -> Result<(), Cause> {
    hold(file, OpenedAs::Output)
}

// A pipe or a device is held by nobody.
fn hold(file: &File, sort: OpenedAs) -> Result<(), Cause> {
    if !is_regular(file)? {
        return Ok(());
    }
    judged(match sort {
        OpenedAs::Input | OpenedAs::Look => file.try_lock_shared(),
        OpenedAs::Output | OpenedAs::Log => file.try_lock(),
    })
}

fn is_regular(file: &File) -> Result<bool, Cause> {
    match file.metadata() {
        Ok(found) => Ok(found.is_file()),
        Err(error) => Err(Cause::of(&error)),
    }
}

// A file is refused exactly where another has it. Where the system can't hold it for another reason, it is used unheld.
fn judged(answer: Result<(), TryLockError>) -> Result<(), Cause>
    ensures { IsErr result ↔ (answer ≡ Err WouldBlock) }
{
    match answer {
        Err(TryLockError::WouldBlock) => Err(Cause::InUse),
        Ok(()) | Err(TryLockError::Error(_)) => Ok(()),
    }
}
