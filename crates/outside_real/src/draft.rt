//! A new file beside the one that it is to replace, so that an output is whole or not at all.
use crate::cause::Cause;
use crate::opening::synced;
use std::fs;
use std::fs::File;
use std::io::Error;
use std::rt::Files;

/// A new file, which takes the place of another once it is whole. Both stand in one folder, under names with no link at their ends.
#[derive(Drop)]
pub struct Draft {
    /// The new file, which is held.
    pub file: File,
    /// Its name.
    pub name: String,
    /// The name of the file that it is to replace.
    pub replaces: String,
    /// Their folder.
    pub folder: File,
    /// Whether the file that it is to replace was made for it, and so is empty.
    pub replaces_new: bool,
    /// Whether it has taken that file's place.
    pub is_placed: bool,
}

impl Draft {
    /// Has the system keep its bytes.
    pub fn keep(&self) -> Result<(), Cause> {
        synced(&self.file)
    }

    /// Puts it in the place of the other file. Where only the folder can't be synced, it stands there, and a crash may bring the other back.
    pub fn put<R: Files>(&mut self, rt: &R) -> Result<(), Cause> {
        caused(fs::rename(rt, &self.name, &self.replaces))?;
        self.is_placed = true;
        caused(self.folder.sync_all())
    }

    /// Removes it, and an empty file that was made for it. One that has been put in its place stays.
    pub fn give_up<R: Files>(&self, rt: &R) -> Result<(), Cause> {
        if self.is_placed {
            return Ok(());
        }
        caused(fs::remove_file(rt, &self.name))?;
        if self.replaces_new && is_empty(rt, &self.replaces) {
            caused(fs::remove_file(rt, &self.replaces))?;
        }
        Ok(())
    }
}

fn is_empty<R: Files>(rt: &R, name: &str) -> bool {
    match fs::metadata(rt, name) {
        Ok(found) => found.len() == 0,
        Err(_) => false,
    }
}

fn caused(answer: Result<(), Error>) -> Result<(), Cause> {
    match answer {
        Ok(()) => Ok(()),
        Err(error) => Err(Cause::of(&error)),
    }
}
