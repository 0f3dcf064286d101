//! How passes meet, and how they come together at the end.
ghost use Rattle.std.specs.Prelude.{◌≡◌, ◌<◌, false, [], ◌∷◌, List, length};
ghost use mathlib.Core.List.{IsPrefix};
ghost use Rattle.catalogue_lock.specs.declared.view.Stage.TheVariants.{Idle};
ghost use Rattle.catalogue_lock.specs.History.{longer};
ghost use Rattle.catalogue_lock.specs.Passes.{Pass as PassFacts, having_seen};
ghost use Rattle.catalogue_lock.specs.Steps.{IsTable, IsSameSeat, Gathered};
ghost use Rattle.catalogue_lock.specs.Rule.{Each};
ghost use Rattle.catalogue_lock.specs.Views.{IsAtRest, pass_of};

use crate::object::Object;
use crate::pass::Pass;
use crate::rule::{Copy, Glue, Place, SERVING, Settle, Steps};

/// Shows the second seat what the first has seen.
pub(crate) fn show<O: Object>(steps: &Steps<O>, from: &mut Place<O>, to: &mut Place<O>)
    requires table { IsTable steps.now.table_id × (from.old.table_id ≡ steps.now.table_id) × (to.old.table_id ≡ steps.now.table_id) }
    requires from { IsAtRest from.old.me }
    requires to { IsAtRest to.old.me }
    ensures from { pass_of from.new ≡ pass_of from.old }
    ensures from_rests { IsAtRest from.new.me }
    ensures to { pass_of to.new ≡ having_seen (pass_of to.old) (longer to.old.me.0.seen from.old.me.0.seen) }
    ensures to_rests { IsAtRest to.new.me }
    ensures from_begins { IsPrefix from.old.me.0.seen to.new.me.0.seen }
    ensures to_begins { IsPrefix to.old.me.0.seen to.new.me.0.seen }
{
    let copy = steps.split_seat::<Copy>(from);
    steps.join_seat::<Glue>(to, copy);
    steps.load::<Settle>(to, SERVING);
}

/// Gives the seat all that a pass has.
fn take_in<O: Object>(steps: &Steps<O>, seat: &mut Place<O>, pass: Pass<O>)
    requires table { IsTable steps.now.table_id × (seat.old.table_id ≡ steps.now.table_id) }
    requires own { pass.lock ≡ steps.now.table_id }
    requires free { (seat.old.me.0.opening ≡ false) × (seat.old.me.0.stage ≡ Idle) × (seat.old.me.1 ≡ []) }
    ensures seat { IsSameSeat seat.old seat.new }
    ensures more { (done : List (PassFacts O O.Item)) → Gathered done seat.old.me → Gathered (pass ∷ done) seat.new.me }
{
    steps.join_seat::<Glue>(seat, pass.into_seat());
    steps.load::<Settle>(seat, SERVING);
}

/// Gives one seat all that these passes have.
pub(crate) fn gather<O: Object>(steps: &Steps<O>, passes: Vec<Pass<O>>) -> Place<O>
    requires table { IsTable steps.now.table_id }
    requires some { 0 < length passes.items }
    requires own { Each (λ p. p.lock ≡ steps.now.table_id) passes.items }
    ensures seat { result.table_id ≡ steps.now.table_id }
    ensures all { Gathered passes.items result.me }
{
    let mut left = passes;
    let Some(last) = left.pop() else {
        unreachable!()
    };
    let mut seat = last.into_seat();
    while let Some(pass) = left.pop() {
        take_in(steps, &mut seat, pass);
    }
    seat
}
