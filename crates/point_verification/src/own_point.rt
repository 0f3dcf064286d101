//! Whether a checkpoint is a history's own.
ghost use Rattle.std.specs.Prelude.{◌↔◌, IfOk, IsTrue};
ghost use Rattle.restoring.specs.Resuming.{IsOfFront};

use catalogue_rules::Steps;
use checkpoint::Point;
use entry_history::EntryPayload;
use marc_types::NoMemory;
use restoring::{has_state_of, resume};
use std::alloc::Global;
use std::sync::ledger::Ledger;

/// Whether a checkpoint is of a front of this history, and so its own: of no more entries, and its state is exactly the one behind so many
/// of them. These are committed anew, and no two are prepared at once.
pub fn is_point_of<L: Ledger>(
    alloc: Global,
    point: &Point,
    entries: &[EntryPayload],
    steps: &mut Steps<L>,
) -> Result<bool, NoMemory>
    ensures { IfOk result (λ told. IsTrue told ↔ IsOfFront entries.now point.now) }
{
    if point.entries > entries.len() as u64 {
        return Ok(false);
    }
    let made = resume(alloc, None, &entries[..point.entries as usize], steps)?;
    let own = has_state_of(alloc, &made.engine, point.rows.as_slice())?;
    Ok(own)
}
