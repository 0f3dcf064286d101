//! What comes of a journal's bytes beside those of a log of checkpoints.
ghost use Rattle.std.specs.Prelude.{IfOk, IfErr};
ghost use Rattle.point_verification.specs.Verifying.{AreOwn, IsOwnOf, IsNotOwnOf, WhyNotOwn};

use crate::logs::{history_of, last_of};
use crate::owning::is_own;
use checkpoint::Point;
use console_lines::Fault;
use entry_history::EntryPayload;
use marc_types::Limits;
use std::alloc::Global;
use unheld_journals::fault_of_look;

/// How many entries a checkpoint holds that is a history's own, and of how many.
fn own_of(alloc: Global, entries: &[EntryPayload], last: Option<Point>) -> Result<(u64, u64), Fault>
    ensures own { IfOk result (λ told. IsOwnOf entries.now last told.0 told.1) }
    ensures not_own { IfErr result (IsNotOwnOf entries.now last) }
{
    let Some(last) = last else {
        return Err(Fault::OtherHistory);
    };
    let Ok(own) = is_own(alloc, &last, entries) else {
        return Err(Fault::Memory);
    };
    if !own {
        return Err(Fault::OtherHistory);
    }
    Ok((last.entries, entries.len() as u64))
}

/// How many entries the last checkpoint holds, of how many, where it is the journal's own and the journal's history is within these
/// limits; or why nothing is told of it.
pub(crate) fn judged(
    alloc: Global,
    limits: Limits,
    journal: Vec<u8>,
    point: Vec<u8>,
) -> Result<(u64, u64), Fault>
    ensures own { IfOk result (λ told. AreOwn limits journal.items point.items told.0 told.1) }
    ensures not_own { IfErr result (WhyNotOwn limits journal.items point.items) }
{
    let entries = match history_of(alloc, limits, journal) {
        Ok(entries) => entries,
        Err(fault) => return Err(fault_of_look(fault)),
    };
    let last = match last_of(alloc, point) {
        Ok(last) => last,
        Err(fault) => return Err(fault_of_look(fault)),
    };
    own_of(alloc, entries.as_slice(), last)
}
