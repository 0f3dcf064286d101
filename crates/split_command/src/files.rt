//! The shares of files, some at a time.
ghost use Rattle.std.specs.Prelude.{IsTrue, ◌≡◌, ◌+◌, ◌≤◌, ℕ, List, None, IfErr, OnOk, length};
ghost use Rattle.outside.specs.Room.{SameBut};
ghost use Rattle.marc_types.specs.Valid.{is_code};
ghost use Rattle.split_command.specs.Names.{names_from, names_of_files};
ghost use Rattle.split_command.specs.Groups.{IsFileWhole, IsFileLeft, IsGroupCause, AreFilesWhole, AreFilesLeft, IsFilesCause};
ghost use Rattle.split_command.specs.Splitting.{AreProper};

use crate::fault::SplitFault;
use crate::group::deal_group;
use crate::plan::{Group, Plan};
use command_words::Library;
use outside::Room;
use std::alloc::Global;

/// The most outputs that are open at once.
const MOST_OPEN: u64 = 128;

/// Writes all shares of a library's file, which has that number: some at a time, by one reading for these.
#[tactic(auto, using(crate::proofs::Filed::shares_apart, crate::proofs::Filed::whole_more, crate::proofs::Filed::left_here, crate::proofs::Filed::left_of_whole))]
fn deal_file<R: Room>(
    alloc: Global,
    room: &mut R,
    plan: &Plan,
    library: &Library,
    file: u64,
) -> Result<(), SplitFault>
    requires proper { IsTrue (is_code library.now.code) }
    requires closed { (name : List ℕ) → (R.seen room.old).open_as name ≡ None }
    requires few { plan.now.parts ≤ 1024 }
    ensures closed { (name : List ℕ) → (R.seen room.new).open_as name ≡ None }
    ensures apart { SameBut (R.seen room.old) (R.seen room.new) (names_from plan.now.prefix file 0 (plan.now.parts + 1)) }
    ensures whole { OnOk result (IsFileWhole (R.seen room.old) (R.seen room.new) plan.now library.now file (plan.now.parts + 1)) }
    ensures left { IsFileLeft (R.seen room.old) (R.seen room.new) plan.now library.now file (plan.now.parts + 1) }
    ensures cause { IfErr result (IsGroupCause library.now.file (names_from plan.now.prefix file 0 (plan.now.parts + 1))
        (R.seen room.old) (R.seen room.new)) }
{
    let mut first = 0;
    'groups: while first <= plan.parts {
        let many = MOST_OPEN.min(plan.parts + 1 - first);
        deal_group(alloc, room, plan, library, Group { file, first, many })?;
        first += many;
    }
    Ok(())
}

/// Writes all shares of all files, one file after the other.
#[tactic(auto, using(crate::proofs::Filed::files_more, crate::proofs::Filed::files_left, crate::proofs::Filed::files_apart, crate::proofs::Filed::files_whole, crate::proofs::Filed::files_left_whole))]
pub fn deal_files<R: Room>(
    alloc: Global,
    room: &mut R,
    plan: &Plan,
    libraries: &[Library],
) -> Result<(), SplitFault>
    requires proper { AreProper libraries.now }
    requires closed { (name : List ℕ) → (R.seen room.old).open_as name ≡ None }
    requires few { plan.now.parts ≤ 1024 }
    ensures closed { (name : List ℕ) → (R.seen room.new).open_as name ≡ None }
    ensures apart { SameBut (R.seen room.old) (R.seen room.new) (names_of_files plan.now.prefix plan.now.parts 0 (length libraries.now)) }
    ensures whole { OnOk result (AreFilesWhole (R.seen room.old) (R.seen room.new) plan.now libraries.now) }
    ensures left { AreFilesLeft (R.seen room.old) (R.seen room.new) plan.now libraries.now }
    ensures cause { IfErr result (IsFilesCause libraries.now (names_of_files plan.now.prefix plan.now.parts 0 (length libraries.now))
        (R.seen room.old) (R.seen room.new)) }
{
    for index in 0..libraries.len() {
        deal_file(alloc, room, plan, &libraries[index], index as u64)?;
    }
    Ok(())
}
