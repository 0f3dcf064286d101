//! Entries that are put behind a history together, or not at all.
ghost use Rattle.std.specs.Prelude.{◌≡◌, ◌<◌, ◌++◌, [], IfOk, OnOk, OnErr};
ghost use Rattle.entry_record.specs.History.{IsWithin};
ghost use Rattle.catalogue_rules.specs.Receipts.{receipts_behind};
ghost use Rattle.durable_catalogue.specs.Staged.{with_all_staged};

use crate::effects::LoaderEffects;
use catalogue_core::Catalogue;
use catalogue_rules::Steps;
use entry_history::Receipts;
use entry_record::Prepared;
use marc_types::NoMemory;
use std::alloc::Global;
use std::sync::ledger::{Blank, Ledger};

fn stage_each<L: Ledger>(
    core: &mut Catalogue,
    alloc: Global,
    items: Vec<Prepared>,
    effects: &mut LoaderEffects,
    steps: &mut Steps<L>,
) -> Result<Receipts, NoMemory>
    requires within { IsWithin core.old.limits (core.old.history ++ items.items) }
    requires unstaged { core.old.staged ≡ [] }
    ensures receipts { IfOk result (λ r. r ≡ receipts_behind core.old.history items.items) }
    ensures staged { OnOk result (core.new ≡ with_all_staged core.old items.items) }
    ensures history { core.new.history ≡ core.old.history }
    ensures limits { core.new.limits ≡ core.old.limits }
{
    let mut receipts = Vec::with_capacity(alloc, items.len())?;
    for item in items {
        effects.note(core, &item);
        let receipt = core.stage(alloc, item, steps)?;
        receipts.push(receipt)?;
    }
    Ok(Receipts::from_vec(receipts))
}

/// Stages all items, which are within the limits behind the history, and counts what they do. At want of memory nothing is changed.
pub fn stage_all<L: Ledger>(
    core: &mut Catalogue,
    alloc: Global,
    items: Vec<Prepared>,
    effects: &mut LoaderEffects,
    blank: Blank,
) -> Result<Receipts, NoMemory>
    requires name { blank.name ≡ L.name }
    requires parts { blank.parts ≡ L.parts }
    requires shared { 0 < blank.parts }
    requires within { IsWithin core.old.limits (core.old.history ++ items.items) }
    requires unstaged { core.old.staged ≡ [] }
    ensures receipts { IfOk result (λ r. r ≡ receipts_behind core.old.history items.items) }
    ensures staged { OnOk result (core.new ≡ with_all_staged core.old items.items) }
    ensures err { OnErr result (core.new ≡ core.old) }
{
    let mut steps = Steps::<L>::new(blank);
    effects.begin_frame();
    let staged = stage_each(core, alloc, items, effects, &mut steps);
    if staged.is_err() {
        core.undo();
    }
    staged
}
