//! The state behind a history, from a checkpoint on.
ghost use Rattle.std.specs.Prelude.{◌≡◌, ◌<◌, IfOk, IfSome};
ghost use Rattle.catalogue_rules.specs.Settle.{state_of};
ghost use Rattle.restoring.specs.Resuming.{IsInOrder, IsOfHistory, IsResumed};

use catalogue_rules::Steps;
use checkpoint::Point;
use entry_history::EntryPayload;
use marc_types::NoMemory;
use restoring::{Restored, resume};
use std::alloc::Global;
use std::marker::Brand;
use std::sync::ledger::{Blank, Ledger};

/// The state behind a history, where nobody asks for the steps of its commits.
fn restore_counted<L: Ledger>(
    alloc: Global,
    point: Option<Point>,
    entries: &[EntryPayload],
    blank: Blank,
) -> Result<Restored, NoMemory>
    requires name { blank.name ≡ L.name }
    requires parts { blank.parts ≡ L.parts }
    requires shared { 0 < blank.parts }
    requires order { IfSome point IsInOrder }
    ensures resumed { IfOk result (IsResumed point entries.now) }
    ensures whole { IfOk result (λ r. IsOfHistory point entries.now → r.engine.state ≡ state_of entries.now) }
{
    let mut steps = Steps::<L>::new(blank);
    resume(alloc, point, entries, &mut steps)
}

/// The state behind a history, from a checkpoint on, where there is one that can be taken up.
pub(crate) fn restore(
    alloc: Global,
    point: Option<Point>,
    entries: &[EntryPayload],
) -> Result<Restored, NoMemory>
    requires { IfSome point IsInOrder }
    ensures resumed { IfOk result (IsResumed point entries.now) }
    ensures whole { IfOk result (λ r. IsOfHistory point entries.now → r.engine.state ≡ state_of entries.now) }
{
    restore_counted::<Brand>(alloc, point, entries, Blank::new(1))
}
