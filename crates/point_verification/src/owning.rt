//! Whether a log's last checkpoint is a history's own, where nobody asks for the steps of its commits.
ghost use Rattle.std.specs.Prelude.{◌≡◌, ◌<◌, ◌↔◌, IfOk, IsTrue};
ghost use Rattle.restoring.specs.Resuming.{IsOfFront};

use crate::own_point::is_point_of;
use catalogue_rules::Steps;
use checkpoint::Point;
use entry_history::EntryPayload;
use marc_types::NoMemory;
use std::alloc::Global;
use std::marker::Brand;
use std::sync::ledger::{Blank, Ledger};

fn is_own_counted<L: Ledger>(
    alloc: Global,
    point: &Point,
    entries: &[EntryPayload],
    blank: Blank,
) -> Result<bool, NoMemory>
    requires name { blank.name ≡ L.name }
    requires parts { blank.parts ≡ L.parts }
    requires shared { 0 < blank.parts }
    ensures { IfOk result (λ told. IsTrue told ↔ IsOfFront entries.now point.now) }
{
    let mut steps = Steps::<L>::new(blank);
    is_point_of(alloc, point, entries, &mut steps)
}

/// Whether a checkpoint is of a front of this history.
pub(crate) fn is_own(
    alloc: Global,
    point: &Point,
    entries: &[EntryPayload],
) -> Result<bool, NoMemory>
    ensures { IfOk result (λ told. IsTrue told ↔ IsOfFront entries.now point.now) }
{
    is_own_counted::<Brand>(alloc, point, entries, Blank::new(1))
}
