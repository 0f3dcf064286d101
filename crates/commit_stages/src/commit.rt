//! An entry committed: made stage by stage, or taken back.
ghost use Rattle.std.specs.Prelude.{◌≡◌, ◌+◌, ◌≤◌, IfOk, OnOk, OnErr};
ghost use Rattle.entry_record.specs.History.{IsAdmitted};
ghost use Rattle.catalogue_rules.specs.Settle.{arrival_of, step};
ghost use Rattle.catalogue_rules.specs.Valid.{IsValid};
ghost use Rattle.linking_laws.specs.Visits.{touched};
ghost use Rattle.linked_store.specs.Linked.{IsAhead};
ghost use Rattle.commit_stages.specs.Receipts.{AreCountsOfStep};

use crate::authority::commit_authority;
use crate::bibliographic::commit_bibliographic;
use crate::changes::CommitCounts;
use catalogue_rules::Steps;
use entry_record::{Preparation, Prepared};
use linked_store::LinkedStore;
use marc_types::{Class, NoMemory, Record};
use std::alloc::Global;
use std::sync::ledger::Ledger;

/// Takes the store to the state behind one more entry: its record comes into its key's place, links that can't stay are ended, and
/// every heading is settled. The visits that it counts are at most what the commit touches. Want of memory leaves the state as it was;
/// the entry is gone then.
pub fn commit_entry<L: Ledger>(
    store: &mut LinkedStore,
    alloc: Global,
    item: Prepared,
    steps: &mut Steps<L>,
) -> Result<CommitCounts, NoMemory>
    requires valid { IsValid store.old.state }
    ensures state { OnOk result (store.new.state ≡ step store.old.state (arrival_of item)) }
    ensures changes { IfOk result (AreCountsOfStep store.old.state (arrival_of item)) }
    ensures err { OnErr result (store.new.state ≡ store.old.state) }
    ensures before { store.new.before ≡ store.old.before }
    ensures visits { steps.new ≤ steps.old + touched store.old.state item }
{
    let (rec, rest) = item.into_parts();
    store.mark();
    match make(store, alloc, rec, &rest, steps) {
        Ok(changes) => Ok(changes),
        Err(fault) => {
            store.roll_back();
            Err(fault)
        }
    }
}

// The same, where want of memory may leave part of it done, which leads back to the mark.
fn make<L: Ledger>(
    store: &mut LinkedStore,
    alloc: Global,
    rec: Record,
    item: &Preparation,
    steps: &mut Steps<L>,
) -> Result<CommitCounts, NoMemory>
    requires own { rec ≡ item.now.rec }
    requires admitted { IsAdmitted item.now }
    requires valid { IsValid store.old.state }
    ensures state { OnOk result (store.new.state ≡ step store.old.state (arrival_of item.now)) }
    ensures changes { IfOk result (AreCountsOfStep store.old.state (arrival_of item.now)) }
    ensures ahead { IsAhead store.old store.new }
    ensures visits { steps.new ≤ steps.old + touched store.old.state item.now }
{
    let number = store.number(alloc, item.class(), item.key())?;
    match item.class() {
        Class::Authority => commit_authority(store, alloc, number, rec, item, steps),
        Class::Bibliographic => commit_bibliographic(store, alloc, number, rec, item, steps),
    }
}
