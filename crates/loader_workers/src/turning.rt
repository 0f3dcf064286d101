ghost use Rattle.std.specs.Prelude.{◌≡◌, ◌^◌, []};
ghost use Rattle.entry_history.specs.Commits.{Origin};
ghost use Rattle.loader_workers.specs.Turns.{CommitsAs, IsCatalogue, CanTurn, HasTurned, CommitsFront, IsCounted};

use crate::counts::Counts;
use crate::file_end::{FileEnd, end_of_commit};
use catalogue_lock::{HistoryLock, Object, Pass};
use entry_history::{Batch, BatchReply, Event};
use std::sync::Wait;

/// Commits a batch in one turn, where it has an entry, and counts its receipts. Where not all of it was committed, the file
/// ends so.
pub fn commit<O: Object<Item = Event, Call = Batch, Reply = BatchReply>, R: Wait>(
    rt: &R,
    lock: &HistoryLock<O>,
    pass: &mut Pass<O>,
    batch: Batch,
    counts: &mut Counts,
) -> Option<FileEnd>
    requires pass { CanTurn lock.now pass.old (2 ^ 31) }
    requires catalogue { IsCatalogue O.takes (O.replies (O.origin lock.now.opened)) }
    requires counted { IsCounted counts.old pass.old.seen }
    ensures front { (origin : Origin) → CommitsAs (O.replies (O.origin lock.now.opened)) origin
        → CommitsFront origin batch result counts.old counts.new pass.old pass.new }
    ensures pass { HasTurned pass.old pass.new 1 }
    ensures no_turn { batch ≡ [] → pass.new.turns ≡ pass.old.turns }
    ensures counted { IsCounted counts.new pass.new.seen }
{
    if batch.is_empty() {
        return None;
    }
    let BatchReply { receipts, end } = lock.turn(rt, pass, batch);
    counts.add(receipts.as_slice());
    end_of_commit(end)
}
