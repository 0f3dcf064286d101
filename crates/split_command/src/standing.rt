//! Whether a file of one of the names is there already.
ghost use Rattle.std.specs.Prelude.{◌<◌, ◌^◌, ◌+◌, IfOk};
ghost use Rattle.split_command.specs.Names.{names_from, names_of_files, split_names};
ghost use Rattle.split_command.specs.Standing.{TellsFree};

use crate::names::{parts_name, share_name};
use marc_types::NoMemory;
use outside::Room;
use std::alloc::Global;

/// Whether no share of a file is there, for that many parts.
#[tactic(auto, using(crate::proofs::Free::shares_more, crate::proofs::Free::share_there))]
fn are_shares_free<R: Room>(
    alloc: Global,
    room: &R,
    prefix: &str,
    parts: u64,
    file: u64,
) -> Result<bool, NoMemory>
    requires { parts + 1 < 2 ^ 64 }
    ensures { IfOk result (TellsFree (R.seen room.now) (names_from prefix.now file 0 (parts + 1))) }
{
    for share in 0..parts + 1 {
        let name = share_name(alloc, prefix, share, file)?;
        if room.is_there(name.as_str()) {
            return Ok(false);
        }
    }
    Ok(true)
}

/// Whether no share of so many files is there.
#[tactic(auto, using(crate::proofs::Free::files_free_more, crate::proofs::Free::file_there))]
fn are_files_free<R: Room>(
    alloc: Global,
    room: &R,
    prefix: &str,
    parts: u64,
    files: u64,
) -> Result<bool, NoMemory>
    requires { parts + 1 < 2 ^ 64 }
    ensures { IfOk result (TellsFree (R.seen room.now) (names_of_files prefix.now parts 0 files)) }
{
    for file in 0..files {
        if !are_shares_free(alloc, room, prefix, parts, file)? {
            return Ok(false);
        }
    }
    Ok(true)
}

/// Whether nothing is there of what a split of so many files into that many parts writes.
#[tactic(auto, using(crate::proofs::Free::parts_there, crate::proofs::Free::one_there, crate::proofs::Free::none_is_there))]
pub fn is_free<R: Room>(
    alloc: Global,
    room: &R,
    prefix: &str,
    parts: u64,
    files: u64,
) -> Result<bool, NoMemory>
    requires { parts + 1 < 2 ^ 64 }
    ensures { IfOk result (TellsFree (R.seen room.now) (split_names prefix.now parts files)) }
{
    let name = parts_name(alloc, prefix)?;
    if room.is_there(name.as_str()) {
        return Ok(false);
    }
    are_files_free(alloc, room, prefix, parts, files)
}
