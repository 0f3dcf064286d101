//! Outputs that are open side by side: begun together, and ended together on every path.
ghost use Rattle.std.specs.Prelude.{◌≡◌, true, length, Some, IfOk, IfErr, OnOk, OnErr};
ghost use Rattle.outside.specs.Room.{AsOutput, SameBut};
ghost use Rattle.split_command.specs.Outputs.{AreApart, AreFree, AreBegun, AreFresh, AreClosedWhole, AreClosedOrNot, KeepsFiles, RaisesFaults, IsOutputCause, EndsOutput};

use crate::fault::SplitFault;
use marc_types::Text;
use outside::{Failed, Room};
use std::alloc::Global;

/// Gives up the outputs of these names: their files are as they were.
#[tactic(auto, using(crate::proofs::SideBySide::given_up_none, crate::proofs::SideBySide::given_up_more, crate::proofs::SideBySide::last_begun))]
pub fn give_up_all<R: Room>(room: &mut R, names: &[Text], outs: Vec<R::Out>)
    requires many { length outs.items ≡ length names.now }
    requires apart { AreApart names.now }
    requires begun { AreBegun (R.seen room.old) names.now }
    ensures apart { SameBut (R.seen room.old) (R.seen room.new) names.now }
    ensures kept { KeepsFiles (R.seen room.old) (R.seen room.new) }
    ensures closed { AreFree (R.seen room.new) names.now }
    ensures rose { RaisesFaults R.Out.faults names.now outs.items (R.seen room.old) (R.seen room.new) }
{
    let mut outs = outs;
    while let Some(out) = outs.pop() {
        room.give_up_out(names[outs.len()].as_str(), out);
    }
    outs.destroy_empty();
}

/// Begins an output under each of these names. Where one can't be begun, those before it are given up.
#[tactic(auto, using(crate::proofs::SideBySide::beginning_none, crate::proofs::SideBySide::beginning_more, crate::proofs::SideBySide::free_at, crate::proofs::SideBySide::apart_front, crate::proofs::SideBySide::failed_begun, crate::proofs::SideBySide::beginning_failed))]
pub fn begin_all<R: Room>(
    alloc: Global,
    room: &mut R,
    names: &[Text],
) -> Result<Vec<R::Out>, SplitFault>
    requires apart { AreApart names.now }
    requires free { AreFree (R.seen room.old) names.now }
    ensures apart { SameBut (R.seen room.old) (R.seen room.new) names.now }
    ensures kept { KeepsFiles (R.seen room.old) (R.seen room.new) }

    // All are begun, and nothing is written to any.
    ensures many { IfOk result (λ outs. length outs.items ≡ length names.now) }
    ensures begun { OnOk result (AreBegun (R.seen room.new) names.now) }
    ensures fresh { IfOk result (λ outs. AreFresh R.Out.written R.Out.faults (R.seen room.old) outs.items) }

    // Or none is open.
    ensures closed { OnErr result (AreFree (R.seen room.new) names.now) }
    ensures cause { IfErr result (IsOutputCause names.now (R.seen room.old) (R.seen room.new)) }
{
    let Ok(mut outs) = Vec::with_capacity(alloc, names.len()) else {
        return Err(SplitFault::Memory);
    };
    for index in 0..names.len() {
        match room.open_out(names[index].as_str()) {
            Ok(out) => outs.push_reserved(out),
            Err(_) => {
                give_up_all(room, &names[..index], outs);
                return Err(SplitFault::Output);
            }
        }
    }
    Ok(outs)
}

/// Ends an output: puts it in the place of its file, or gives it up.
fn end_out<R: Room>(room: &mut R, name: &Text, out: R::Out, keep: bool) -> Result<(), Failed>
    requires { (R.seen room.old).open_as name.now ≡ Some AsOutput }
    ensures { EndsOutput (R.seen room.old) (R.seen room.new) name.now (R.Out.written out) keep result }
{
    if keep {
        return room.close_out(name.as_str(), out);
    }
    room.give_up_out(name.as_str(), out);
    Err(Failed)
}

/// Puts the outputs of these names in the places of their files. Behind one that can't be put there the others are given up.
#[tactic(auto, using(crate::proofs::SideBySide::ended_none, crate::proofs::SideBySide::ended_more, crate::proofs::SideBySide::last_begun))]
pub fn close_all<R: Room>(room: &mut R, names: &[Text], outs: Vec<R::Out>) -> Result<(), SplitFault>
    requires many { length outs.items ≡ length names.now }
    requires apart { AreApart names.now }
    requires begun { AreBegun (R.seen room.old) names.now }
    ensures apart { SameBut (R.seen room.old) (R.seen room.new) names.now }
    ensures closed { AreFree (R.seen room.new) names.now }
    ensures whole { OnOk result ((R.seen room.old).tells ≡ true → AreClosedWhole R.Out.written (R.seen room.new) names.now outs.items) }
    ensures left { (R.seen room.old).tells ≡ true →
        AreClosedOrNot R.Out.written (R.seen room.old) (R.seen room.new) names.now outs.items }
    ensures cause { IfErr result (IsOutputCause names.now (R.seen room.old) (R.seen room.new)) }
{
    let mut outs = outs;
    let mut closed = true;
    while let Some(out) = outs.pop() {
        if end_out(room, &names[outs.len()], out, closed).is_err() {
            closed = false;
        }
    }
    outs.destroy_empty();
    if closed {
        Ok(())
    } else {
        Err(SplitFault::Output)
    }
}
