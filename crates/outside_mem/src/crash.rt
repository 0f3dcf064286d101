ghost use Rattle.std.specs.Prelude.{◌≡◌, length, replicate, reverse, IfOk};
ghost use Rattle.outside.specs.Disk.{patch};
ghost use Rattle.outside_mem.specs.Disk.{next_content, next_image, image_after, chosen, cut_image};

use crate::change::Change;
use std::alloc::{AllocError, Global};

/// What a crash leaves in the place of bytes that it destroys.
const DESTROYED: u8 = 0xFF;

/// The bytes with these in the place of those from `at` on, and past the end.
pub fn patched(alloc: Global, old: &[u8], at: usize, bytes: &[u8]) -> Result<Vec<u8>, AllocError>
    ensures { IfOk result (λ new. new.items ≡ patch at bytes.now old.now) }
{
    let mut new = old[..at.min(old.len())].to_vec(alloc)?;
    new.extend_from_slice(bytes)?;
    if at < old.len() && bytes.len() < old.len() - at {
        new.extend_from_slice(&old[at + bytes.len()..])?;
    }
    Ok(new)
}

fn destroyed(alloc: Global, count: usize) -> Result<Vec<u8>, AllocError>
    ensures { IfOk result (λ bytes. bytes.items ≡ replicate count 255) }
{
    vec![in alloc; DESTROYED; count]
}

#[tactic(auto, using(crate::proofs::Crashes::chosen_tests))]
fn image_written(
    alloc: Global,
    choice: u8,
    at: u64,
    bytes: &[u8],
    image: &[u8],
) -> Result<Vec<u8>, AllocError>
    ensures { IfOk result (λ next. next.items
        ≡ chosen choice image.now (patch at bytes.now image.now) (patch at (replicate (length bytes.now) 255) image.now)) }
{
    if choice == 0 {
        return image.to_vec(alloc);
    }
    if choice == 1 {
        return patched(alloc, image, at as usize, bytes);
    }
    let filled = destroyed(alloc, bytes.len())?;
    patched(alloc, image, at as usize, &filled)
}

#[tactic(auto, using(crate::proofs::Crashes::chosen_tests))]
fn image_cut(
    alloc: Global,
    choice: u8,
    len: u64,
    done: bool,
    image: &[u8],
) -> Result<Vec<u8>, AllocError>
    ensures { IfOk result (λ next. next.items ≡ cut_image choice len done image.now) }
{
    let kept = &image[..(len as usize).min(image.len())];
    if choice == 0 || choice == 1 && !done {
        return image.to_vec(alloc);
    }
    let mut next = kept.to_vec(alloc)?;
    if choice != 1 {
        let filled = destroyed(alloc, image.len() - kept.len())?;
        next.extend_from_slice(&filled)?;
    }
    Ok(next)
}

fn image_next(
    alloc: Global,
    choice: u8,
    change: &Change,
    image: &[u8],
    content: &[u8],
) -> Result<Vec<u8>, AllocError>
    ensures { IfOk result (λ next. next.items ≡ next_image choice change.now image.now content.now) }
{
    match change {
        Change::Write(at, bytes, _) => image_written(alloc, choice, *at, bytes.as_slice(), image),
        Change::Cut(len, done) => image_cut(alloc, choice, *len, *done, image),
        Change::Sync(true) => content.to_vec(alloc),
        Change::Sync(false) => image.to_vec(alloc),
    }
}

fn content_next(alloc: Global, change: &Change, content: &[u8]) -> Result<Vec<u8>, AllocError>
    ensures { IfOk result (λ next. next.items ≡ next_content change.now content.now) }
{
    match change {
        Change::Write(at, bytes, true) => {
            patched(alloc, content, *at as usize, bytes.as_slice())
        }
        Change::Cut(len, true) => { content[..(*len as usize).min(content.len())].to_vec(alloc) }
        _ => content.to_vec(alloc),
    }
}

/// The image that a crash after these changes leaves by a choice.
pub fn replay(
    alloc: Global,
    start: &[u8],
    changes: &[Change],
    choice: u8,
) -> Result<Vec<u8>, AllocError>
    ensures { IfOk result (λ image. image.items ≡ image_after choice start.now (reverse changes.now)) }
{
    let mut content = start.to_vec(alloc)?;
    let mut image = start.to_vec(alloc)?;
    for change in changes {
        image = image_next(alloc, choice, change, &image, &content)?;
        content = content_next(alloc, change, &content)?;
    }
    Ok(image)
}
