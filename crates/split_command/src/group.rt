//! Some shares of a file, whose outputs are open side by side.
ghost use Rattle.std.specs.Prelude.{◌≡◌, true, None, IsTrue, IfErr, OnOk};
ghost use Rattle.marc_types.specs.Valid.{is_code};
ghost use Rattle.outside.specs.Room.{SameBut};
ghost use Rattle.split_command.specs.Outputs.{AreApart, AreFree};
ghost use Rattle.split_command.specs.Groups.{names_in, IsGroup, IsGroupWhole, IsGroupLeft, IsGroupCause};

use crate::dealing::deal_source;
use crate::fault::SplitFault;
use crate::names::names_from;
use crate::outputs::{begin_all, close_all, give_up_all};
use crate::plan::{Group, Plan};
use command_words::Library;
use marc_types::{NoMemory, Text};
use outside::Room;
use std::alloc::Global;

/// Deals an open file out under these names, which are those of the group, and closes it again on every path.
#[tactic(auto, using(crate::proofs::Grouped::whole_of_closed, crate::proofs::Grouped::left_of_closed, crate::proofs::Grouped::given_up_fault, crate::proofs::Grouped::kept_left, crate::proofs::Grouped::keeps_then, crate::proofs::Grouped::keeps_same, crate::proofs::Grouped::cause_between, crate::proofs::Grouped::dealt_as_cut))]
fn deal_under<R: Room>(
    alloc: Global,
    room: &mut R,
    plan: &Plan,
    library: &Library,
    group: Group,
    names: &[Text],
    source: R::In,
) -> Result<(), SplitFault>
    requires proper { IsTrue (is_code library.now.code) }
    requires left { (R.seen room.old).tells ≡ true → R.In.left source ≡ (R.seen room.old).file library.now.file }
    requires fresh { R.In.faults source ≡ 0 }
    requires named { names.now ≡ names_in plan.now group }
    requires apart { AreApart names.now }
    requires free { AreFree (R.seen room.old) names.now }
    ensures apart { SameBut (R.seen room.old) (R.seen room.new) names.now }
    ensures closed { AreFree (R.seen room.new) names.now }
    ensures whole { OnOk result (IsGroupWhole (R.seen room.old) (R.seen room.new) plan.now library.now group) }
    ensures left { IsGroupLeft (R.seen room.old) (R.seen room.new) plan.now library.now group }
    ensures cause { IfErr result (IsGroupCause library.now.file names.now (R.seen room.old) (R.seen room.new)) }
{
    let mut outs = match begin_all(alloc, room, names) {
        Ok(outs) => outs,
        Err(fault) => {
            room.close_in(library.file.as_str(), source);
            return Err(fault);
        }
    };
    let bounds = plan.bounds.as_slice();
    let (dealt, source) = deal_source(
        alloc,
        source,
        &library.code,
        bounds,
        group.first,
        outs.as_mut_slice(),
    );
    room.close_in(library.file.as_str(), source);
    match dealt {
        Ok(()) => close_all(room, names, outs),
        Err(fault) => {
            give_up_all(room, names, outs);
            Err(fault)
        }
    }
}

/// Writes some shares of a library's file, each whole or not at all, by one reading of it.
pub fn deal_group<R: Room>(
    alloc: Global,
    room: &mut R,
    plan: &Plan,
    library: &Library,
    group: Group,
) -> Result<(), SplitFault>
    requires proper { IsTrue (is_code library.now.code) }
    requires input { (R.seen room.old).open_as library.now.file ≡ None }
    requires group { IsGroup plan.now group }
    requires apart { AreApart (names_in plan.now group) }
    requires free { AreFree (R.seen room.old) (names_in plan.now group) }
    ensures apart { SameBut (R.seen room.old) (R.seen room.new) (names_in plan.now group) }
    ensures closed { AreFree (R.seen room.new) (names_in plan.now group) }
    ensures whole { OnOk result (IsGroupWhole (R.seen room.old) (R.seen room.new) plan.now library.now group) }
    ensures left { IsGroupLeft (R.seen room.old) (R.seen room.new) plan.now library.now group }
    ensures cause { IfErr result (IsGroupCause library.now.file (names_in plan.now group) (R.seen room.old) (R.seen room.new)) }
{
    let names = match names_from(
        alloc,
        plan.prefix.as_str(),
        group.file,
        group.first,
        group.many,
    ) {
        Ok(names) => names,
        Err(NoMemory) => return Err(SplitFault::Memory),
    };
    match room.open_in(library.file.as_str()) {
        Ok(source) => deal_under(alloc, room, plan, library, group, names.as_slice(), source),
        Err(_) => Err(SplitFault::Input),
    }
}
