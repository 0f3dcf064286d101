//! A catalogue's state from a checkpoint and the entries behind it.
ghost use Rattle.std.specs.Prelude.{◌≡◌, ◌+◌, ◌≤◌, IfSome, IfOk, OnOk};
ghost use Rattle.catalogue_rules.specs.Settle.{state_of};
ghost use Rattle.checkpoint.specs.Resuming.{gone_on};
ghost use Rattle.catalogue_core.specs.Engines.{kept_engine};
ghost use Rattle.restoring.specs.Resuming.{BeginsWith, IsBlank, IsInOrder, IsOfHistory, IsResumed, VisitsBehind, touched_through};

use crate::engine::{EngineFault, from_rows};
use catalogue_core::Engine;
use catalogue_rules::Steps;
use checkpoint::Point;
use entry_history::EntryPayload;
use marc_types::NoMemory;
use std::alloc::Global;
use std::sync::ledger::Ledger;

/// A catalogue's state, and how many entries of the history were not committed anew, since a checkpoint holds them.
#[derive(Drop)]
pub struct Restored {
    pub engine: Engine,
    pub taken: u64,
}

fn nothing_taken(alloc: Global) -> Restored
    ensures blank { IsBlank result.taken result.engine.state }
    ensures kept { result.engine ≡ kept_engine result.engine.state }
{
    Restored {
        engine: Engine::empty(alloc),
        taken: 0,
    }
}

/// What a history of so many entries begins with.
fn begin(alloc: Global, point: Option<Point>, count: u64) -> Result<Restored, NoMemory>
    requires { IfSome point IsInOrder }
    ensures begins { IfOk result (λ r. BeginsWith count point r.taken r.engine.state) }
    ensures kept { IfOk result (λ r. r.engine ≡ kept_engine r.engine.state) }
    ensures within { IfOk result (λ r. r.taken ≤ count) }
{
    let Some(point) = point else {
        return Ok(nothing_taken(alloc));
    };
    if point.entries == 0 || point.entries > count {
        return Ok(nothing_taken(alloc));
    }
    match from_rows(alloc, point.rows.into_vec()) {
        Ok(engine) => Ok(Restored {
            engine,
            taken: point.entries,
        }),
        Err(EngineFault::NotValid) => Ok(nothing_taken(alloc)),
        Err(EngineFault::NoMemory) => Err(NoMemory),
    }
}

/// Commits entries, one after the other. There is no way back behind any of them.
fn go_on<L: Ledger>(
    alloc: Global,
    engine: &mut Engine,
    entries: &[EntryPayload],
    steps: &mut Steps<L>,
) -> Result<(), NoMemory>
    requires kept { engine.old ≡ kept_engine engine.old.state }
    ensures state { OnOk result (engine.new ≡ kept_engine (gone_on engine.old.state entries.now)) }
    ensures visits { steps.new ≤ steps.old + touched_through engine.old.state entries.now }
{
    for entry in entries {
        let item = entry.prepare(alloc)?;
        engine.step(alloc, item, steps)?;
        engine.keep();
    }
    Ok(())
}

/// The state behind a history of these entries, with the help of a checkpoint, where there is one. It is taken up where it holds some
/// entries, the history has no fewer, and a catalogue can begin with its state; then only the entries behind it are committed, and else
/// all. No two entries are prepared at once.
pub fn resume<L: Ledger>(
    alloc: Global,
    point: Option<Point>,
    entries: &[EntryPayload],
    steps: &mut Steps<L>,
) -> Result<Restored, NoMemory>
    // as the last whole checkpoint of a log is
    requires order { IfSome point IsInOrder }

    // The state is the one begun with, gone on with by the entries behind those that were taken.
    ensures resumed { IfOk result (IsResumed point entries.now) }

    // So it is that behind the history, unless the checkpoint is taken up and is another history's.
    ensures whole { IfOk result (λ r. IsOfHistory point entries.now → r.engine.state ≡ state_of entries.now) }
    ensures unspared { IfOk result (λ r. r.taken ≡ 0 → r.engine.state ≡ state_of entries.now) }

    // No more records are visited than the entries behind the checkpoint touch.
    ensures visits { VisitsBehind point entries.now steps.old steps.new }
{
    let begun = begin(alloc, point, entries.len() as u64)?;
    let Restored { mut engine, taken } = begun;
    go_on(alloc, &mut engine, &entries[taken as usize..], steps)?;
    Ok(Restored { engine, taken })
}
