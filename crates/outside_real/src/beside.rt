//! How an output's new file is made beside the one that it is to replace.
use crate::cause::Cause;
use crate::draft::Draft;
use crate::folder::folder_of;
use crate::leftover::{MARK, clear};
use crate::links::behind_links;
use crate::mounts::is_mount;
use crate::opening::hold_alone;
use crate::straight::Straight;
use std::alloc::{AllocError, Global};
use std::fs;
use std::fs::{File, Metadata, OpenOptions, Permissions};
use std::io::{Error, ErrorKind};
use std::os::unix::fs::{MetadataExt, OpenOptionsExt, PermissionsExt};
use std::path::Path;
use std::rt::Files;

/// How an output is written.
#[derive(Drop)]
pub enum Way {
    /// Into a new file, which takes its place.
    Beside(Draft),
    /// Over its file.
    Straight(Straight),
}

/// Who may read and write a new file until it is known who might the other.
const OWN: u32 = 0o600;

/// The rights that files have, of all bits of a mode.
const RIGHTS: u32 = 0o777;

/// The bit of a folder in which only the owner of a file may put another in its place.
const STICKY: u32 = 0o1000;

/// How the output of that name, which is held as that file, is written. The number of the process tells its new file from those of others.
pub fn way_of<R: Files<File = File> + Alloc + Clone + Drop>(
    alloc: Global,
    rt: &R,
    name: &str,
    file: &File,
    is_new: bool,
    process: u32,
) -> Result<Way, Cause> {
    let found = known(file.metadata())?;
    if !found.is_file() {
        return Ok(Way::Straight(Straight::NoFile));
    }
    let Some(replaces) = behind_links(alloc, rt, name)? else {
        return Ok(Way::Straight(Straight::NoFile));
    };
    if found.nlink() > 1 {
        return Ok(Way::Straight(Straight::Links));
    }
    if is_mount(alloc, rt, &replaces) {
        return Ok(Way::Straight(Straight::Mount));
    }
    beside(alloc, rt, replaces, &found, is_new, process)
}

// A new file beside that one, where its folder lets one be made, put there and synced.
fn beside<R: Files<File = File> + Alloc + Clone + Drop>(
    alloc: Global,
    rt: &R,
    replaces: String,
    found: &Metadata,
    is_new: bool,
    process: u32,
) -> Result<Way, Cause> {
    let Some(file_name) = Path::new(&replaces).file_name() else {
        return Ok(Way::Straight(Straight::Folder));
    };
    clear(rt, folder_of(&replaces), file_name);
    let Ok(name) = draft_name(alloc, &replaces, file_name, process) else {
        return Err(Cause::NoMemory);
    };
    let Ok(folder) = File::open(rt, folder_of(&replaces)) else {
        return Ok(Way::Straight(Straight::Folder));
    };
    let file = match made(rt, &name) {
        Ok(file) => file,
        Err(error) if is_no_folder_for(&error) => return Ok(Way::Straight(Straight::Folder)),
        Err(error) => return Err(Cause::of(&error)),
    };
    let draft = Draft {
        file,
        name,
        replaces,
        folder,
        replaces_new: is_new,
        is_placed: false,
    };
    settled(rt, draft, found)
}

// A draft that was just made, held and with the owner and the rights of the file that it is to replace.
fn settled<R: Files<File = File>>(rt: &R, draft: Draft, found: &Metadata) -> Result<Way, Cause> {
    hold_alone(&draft.file)?;
    if !may_take_place(&draft, found)? {
        let _removed = fs::remove_file(rt, &draft.name);
        return Ok(Way::Straight(Straight::Folder));
    }
    make_like(rt, &draft, found);
    Ok(Way::Beside(draft))
}

// `.OUT.union_cat.PID`, in the folder of OUT.
fn draft_name(
    alloc: Global,
    replaces: &str,
    file_name: &str,
    process: u32,
) -> Result<String, AllocError> {
    let name = format!(in alloc; ".{file_name}{MARK}{process}")?;
    let path = Path::new(folder_of(replaces)).join(alloc, &name)?;
    Ok(path.into_string())
}

// A file that wasn't there.
fn made<R: Files<File = File>>(rt: &R, name: &str) -> Result<File, Error> {
    OpenOptions::new()
        .write(true)
        .create_new(true)
        .mode(OWN)
        .open(rt, name)
}

// Whether a folder takes no new file, or none of that name.
fn is_no_folder_for(error: &Error) -> bool {
    matches!(
        error.kind(),
        ErrorKind::PermissionDenied | ErrorKind::ReadOnlyFilesystem | ErrorKind::InvalidFilename
    )
}

// Whether a new file may take the other's place: in a sticky folder only its owner's may, or the folder's, or root's.
fn may_take_place(draft: &Draft, found: &Metadata) -> Result<bool, Cause> {
    let folder = known(draft.folder.metadata())?;
    let own = known(draft.file.metadata())?.uid();
    let is_sticky = folder.mode() & STICKY != 0;
    Ok(!is_sticky || own == 0 || own == found.uid() || own == folder.uid())
}

// The owner, the group and the rights of the other file, as far as the system lets one. Where the group can't be kept, it has no more
// rights than others have.
fn make_like<R: Files<File = File>>(rt: &R, draft: &Draft, found: &Metadata) {
    let has_owner = rt
        .chown(&draft.name, Some(found.uid()), Some(found.gid()))
        .is_ok();
    let has_group = has_owner || rt.chown(&draft.name, None, Some(found.gid())).is_ok();
    let rights = if has_group {
        found.mode() & RIGHTS
    } else {
        without_group(found.mode() & RIGHTS)
    };
    let _kept = draft.file.set_permissions(Permissions::from_mode(rights));
}

fn without_group(rights: u32) -> u32 {
    (rights & 0o707) | (rights & ((rights & 0o007) << 3))
}

fn known(answer: Result<Metadata, Error>) -> Result<Metadata, Cause> {
    match answer {
        Ok(found) => Ok(found),
        Err(error) => Err(Cause::of(&error)),
    }
}
