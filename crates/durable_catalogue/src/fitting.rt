//! How many entries of a batch a catalogue has room for.
ghost use Rattle.std.specs.Prelude.{◌≡◌, ◌≢◌, ◌≤◌, [], length, take, IfNone, IfSome};
ghost use Rattle.catalogue_core.specs.Catalogues.{all_entries};
ghost use Rattle.entry_history.specs.Commits.{fitting};

use catalogue_core::{Catalogue, passes_limits};
use entry_history::Batch;
use entry_record::Prepared;

/// How many items come before the first that would pass a limit.
fn fitting_count(core: &Catalogue, items: &[Prepared]) -> usize
    ensures value { take result items.now ≡ fitting core.now.limits (all_entries core.now) items.now }
    ensures within { result ≤ length items.now }
{
    let mut count = 0;
    let mut entries = core.history_len();
    let mut bytes = core.bytes();
    for item in items {
        if passes_limits(core.limits(), entries, bytes, item) {
            return count;
        }
        count += 1;
        entries += 1;
        bytes += item.size();
    }
    count
}

/// The part of a batch that comes before the first entry that would pass a limit, where there is one.
#[tactic(auto, using(crate::proofs::Fits::whole_fits))]
pub fn fitting_part(core: &Catalogue, batch: Batch) -> Option<Batch>
    ensures part { IfSome result (λ part. part ≡ fitting core.now.limits (all_entries core.now) batch) }
    ensures some { IfSome result (λ part. part ≢ []) }
    ensures whole { IfSome result (λ part. length batch ≤ length part → part ≡ batch) }
    ensures none { IfNone result (fitting core.now.limits (all_entries core.now) batch ≡ []) }
{
    let mut batch = batch;
    let count = fitting_count(core, batch.items());
    if count == 0 {
        return None;
    }
    batch.cut(count as u32);
    Some(batch)
}
