//! The commit of a bibliographic record: it touches no other record.
ghost use Rattle.std.specs.Prelude.{◌≡◌, ℕ, ◌+◌, ◌≤◌, IfOk, OnOk};
ghost use Rattle.marc_types.specs.Order.{same_key};
ghost use Rattle.marc_types.specs.declared.key.Class.TheVariants.{Bibliographic as ABibliographic};
ghost use Rattle.numbering.specs.Numbers.{IsNumberOf};
ghost use Rattle.catalogue_tables.specs.Seam.{keys_in};
ghost use Rattle.catalogue_rules.specs.Settle.{arrival_of, step};
ghost use Rattle.linking_laws.specs.Commits.{CanBeCommitted};
ghost use Rattle.linking_laws.specs.Receipts.{receipt_by};
ghost use Rattle.linking_laws.specs.Visits.{touched};
ghost use Rattle.linked_store.specs.Linked.{IsAhead};
ghost use Rattle.commit_stages.specs.Receipts.{AreReceiptCounts};

use crate::changes::CommitCounts;
use crate::stages::settle_brought;
use catalogue_rules::Steps;
use entry_record::Preparation;
use linked_store::LinkedStore;
use marc_types::{NoMemory, Record};
use std::alloc::Global;
use std::sync::ledger::Ledger;

/// The entry's record comes into its place, and its fields are settled.
pub(crate) fn commit_bibliographic<L: Ledger>(
    store: &mut LinkedStore,
    alloc: Global,
    number: u32,
    rec: Record,
    item: &Preparation,
    steps: &mut Steps<L>,
) -> Result<CommitCounts, NoMemory>
    requires own { rec ≡ item.now.rec }
    requires commit { CanBeCommitted ABibliographic store.old.state item.now }
    requires number { IsNumberOf same_key (keys_in ABibliographic store.old.keys) item.now.key number }
    ensures state { OnOk result (store.new.state ≡ step store.old.state (arrival_of item.now)) }
    ensures changes { IfOk result (λ changes. (at : ℕ) → AreReceiptCounts (receipt_by at store.old.state item.now) changes) }
    ensures ahead { IsAhead store.old store.new }
    ensures visits { steps.new ≤ steps.old + touched store.old.state item.now }
{
    let own = store.place(alloc, number, rec, item)?;
    let counts = settle_brought(store, alloc, number, own, item, steps)?;
    Ok(CommitCounts {
        linked: counts.linked,
        ambiguous: counts.ambiguous,
        unlinked: counts.unlinked,
        changed_records: 0,
    })
}
