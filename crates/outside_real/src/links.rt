//! The name behind the links at the end of a name.
use crate::cause::Cause;
use crate::folder::folder_of;
use std::alloc::{AllocError, Global};
use std::path::Path;
use std::rt::Files;

/// The most links that are followed.
const MOST_LINKS: u32 = 40;

/// The name of the file that a name leads to, with no link at its end; none where one on the way is of the system's own.
pub fn behind_links<R: Files>(alloc: Global, rt: &R, name: &str) -> Result<Option<String>, Cause> {
    let Ok(mut at) = String::from_str(alloc, name) else {
        return Err(Cause::NoMemory);
    };
    for _ in 0..MOST_LINKS {
        if is_of_the_system(&at) {
            return Ok(None);
        }
        let Ok(link) = rt.read_link(alloc, &at) else {
            return Ok(Some(at));
        };
        let Ok(next) = joined(alloc, &at, link.as_str()) else {
            return Err(Cause::NoMemory);
        };
        at = next;
    }
    Err(Cause::Other)
}

// What a link of that name leads to.
fn joined(alloc: Global, name: &str, link: &str) -> Result<String, AllocError> {
    let path = Path::new(folder_of(name)).join(alloc, link)?;
    Ok(path.into_string())
}

/// Whether a name is one of the system's own, behind which a program's open files stand.
fn is_of_the_system(name: &str) -> bool {
    name.starts_with("/proc/") || name.starts_with("/dev/std") || name.starts_with("/dev/fd/")
}
