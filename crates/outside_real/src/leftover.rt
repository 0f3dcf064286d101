//! Drafts that programs left which are gone.
use std::fs::{File, OpenOptions};
use std::rt::Files;
use std::{fs, io};

/// What stands in a draft's name between the name of its file and the number of its process.
pub const MARK: &str = ".union_cat.";

/// Removes the drafts of that file in that folder whose programs are gone. One that can't be removed stays.
pub fn clear<R: Files<File = File> + Alloc + Clone + Drop>(rt: &R, folder: &str, file: &str) {
    let _cleared = clear_all(rt, folder, file);
}

fn clear_all<R: Files<File = File> + Alloc + Clone + Drop>(
    rt: &R,
    folder: &str,
    file: &str,
) -> io::Result<()> {
    for entry in fs::read_dir(rt, folder)? {
        if let Ok(entry) = entry {
            if is_draft_of(entry.file_name(), file) {
                let _removed = remove_left(rt, entry.path().as_str());
            }
        }
    }
    Ok(())
}

/// Whether a name is that of a draft of a file.
pub fn is_draft_of(name: &str, file: &str) -> bool {
    match number_in(name, file) {
        Some(number) => !number.is_empty() && number.bytes().all(|byte| byte.is_ascii_digit()),
        None => false,
    }
}

fn number_in<'a>(name: &'a str, file: &str) -> Option<&'a str> {
    name.strip_prefix('.')?
        .strip_prefix(file)?
        .strip_prefix(MARK)
}

// A draft that nobody holds was left. Where the system holds no files nobody can tell, and it stays.
fn remove_left<R: Files<File = File>>(rt: &R, name: &str) -> io::Result<()> {
    let file = OpenOptions::new().write(true).open(rt, name)?;
    if file.try_lock().is_ok() {
        fs::remove_file(rt, name)?;
    }
    Ok(())
}
