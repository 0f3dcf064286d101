ghost use Rattle.std.specs.Prelude.{◌≡◌, ◌++◌, IfOk, string_bytes, codes};
ghost use Rattle.std.specs.Fmt.{decimal};
ghost use Rattle.journal_verification.specs.Verifying.{counts_line, torn_line, tail_line, verified_lines};
ghost use Rattle.journal_verification.specs.Digests.{digest_line};

use crate::verified::Verified;
use commit_journal::Tail;
use marc_types::NoMemory;
use std::alloc::Global;

/// The line of the place behind which a journal is torn, where it is.
fn torn_text(alloc: Global, torn: Option<u64>) -> Result<String, NoMemory>
    ensures { IfOk result (λ text. string_bytes text ≡ torn_line torn) }
{
    match torn {
        Some(place) => Ok(format!(in alloc; "torn behind byte {place}\n")?),
        None => Ok(String::new(alloc)),
    }
}

/// The line of a journal behind whose end more stands than a crash leaves.
fn tail_text(alloc: Global, tail: Tail) -> Result<String, NoMemory>
    ensures { IfOk result (λ text. string_bytes text ≡ tail_line tail) }
{
    match tail {
        Tail::Nothing | Tail::Torn => Ok(String::new(alloc)),
        Tail::More => Ok(String::from_str(
            alloc,
            "more stands behind the journal's end than a crash leaves: salvage\n",
        )?),
    }
}

/// The line of a journal's version, entries, frames and bytes.
#[tactic(auto, unfolding(crate::specs::Verifying::counts_line))]
fn counts_text(alloc: Global, verified: &Verified) -> Result<String, NoMemory>
    ensures { IfOk result (λ text. string_bytes text ≡ counts_line verified.now) }
{
    let version = verified.version;
    let entries = verified.entries;
    let frames = verified.frames;
    let bytes = verified.bytes;
    Ok(format!(in alloc; "version {version}, {entries} entries, {frames} frames, {bytes} bytes\n")?)
}

/// The line of the digest of so many entries.
#[tactic(auto, unfolding(crate::specs::Digests::digest_line))]
pub fn digest_text(alloc: Global, digest: &[u8; 32], count: u64) -> Result<String, NoMemory>
    ensures { IfOk result (λ text. string_bytes text ≡ digest_line digest.now count) }
{
    let digits = hex::encode(alloc, digest.as_slice())?;
    Ok(format!(in alloc; "sha256 {digits} of {count} entries\n")?)
}

/// What the console is told of a journal.
pub fn verified_text(alloc: Global, verified: &Verified) -> Result<String, NoMemory>
    ensures { IfOk result (λ text. string_bytes text ≡ verified_lines verified.now) }
{
    let mut text = counts_text(alloc, verified)?;
    let digest = digest_text(alloc, &verified.digest, verified.entries)?;
    text.push_str(digest.as_str())?;
    let torn = torn_text(alloc, verified.torn)?;
    text.push_str(torn.as_str())?;
    let tail = tail_text(alloc, verified.tail)?;
    text.push_str(tail.as_str())?;
    Ok(text)
}
