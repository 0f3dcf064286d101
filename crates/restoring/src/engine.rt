//! An engine that begins with kept rows.
ghost use Rattle.std.specs.Prelude.{◌≡◌, ◌↔◌, true, All, IfErr, IfOk, IsTrue, OnOk};
ghost use Rattle.catalogue_core.specs.Engines.{kept_engine};
ghost use Rattle.kept_rows.specs.Rows.{are_in_order, row_of, state_of_rows};
ghost use Rattle.kept_rows.specs.Standing.{IsSoundRow, IsStanding};
ghost use Rattle.restoring.specs.Restoring.{IsUnfit};

use crate::feeding::feed;
use crate::scan::each_field_rests;
use catalogue_core::Engine;
use kept_rows::laws::{a_state_stands_where_its_rows_are_sound, rows_in_order_ascend};
use kept_rows::{KeptRow, is_sound};
use linked_store::ReadableStore;
use marc_types::NoMemory;
use std::alloc::Global;

/// Why no catalogue begins with rows.
#[derive(Clone, Copy, Debug, PartialEq, Eq)]
pub enum EngineFault {
    /// Their state isn't valid, or one of the records deletes.
    NotValid,
    NoMemory,
}

impl From<NoMemory> for EngineFault {
    ghost use Rattle.restoring.specs.declared.engine.EngineFault.{EngineFault};

    ghost from_gives = { λ _ fault. fault ≡ EngineFault.NoMemory };

    fn from(_error: NoMemory) -> EngineFault {
        EngineFault::NoMemory
    }
}

/// An engine with the state of these rows. `NotValid` comes exactly where a catalogue can't begin with it. The rows are gone then.
pub fn from_rows(alloc: Global, rows: Vec<KeptRow>) -> Result<Engine, EngineFault>
    requires { are_in_order rows.items ≡ true }
    ensures state { IfOk result (λ engine. engine ≡ kept_engine (state_of_rows rows.items)) }
    ensures standing { OnOk result (IsStanding (state_of_rows rows.items)) }
    ensures unfit { IfErr result (IsUnfit (state_of_rows rows.items)) }
{
    a_state_stands_where_its_rows_are_sound();
    if !are_sound(alloc, rows.as_slice())? {
        return Err(EngineFault::NotValid);
    }
    of_sound(alloc, rows)
}

// The same of rows each of which is sound.
fn of_sound(alloc: Global, rows: Vec<KeptRow>) -> Result<Engine, EngineFault>
    requires ordered { are_in_order rows.items ≡ true }
    requires sound { All (λ r. IsSoundRow r.class (row_of r)) rows.items }
    ensures state { IfOk result (λ engine. engine ≡ kept_engine (state_of_rows rows.items)) }
    ensures standing { OnOk result (IsStanding (state_of_rows rows.items)) }
    ensures unfit { IfErr result (IsUnfit (state_of_rows rows.items)) }
{
    a_state_stands_where_its_rows_are_sound();
    rows_in_order_ascend();
    let store = fed(alloc, rows)?;
    if !each_field_rests(&store, alloc)? {
        return Err(EngineFault::NotValid);
    }
    Ok(Engine::from_store(store))
}

// Whether each row is sound alone.
fn are_sound(alloc: Global, rows: &[KeptRow]) -> Result<bool, NoMemory>
    ensures { IfOk result (λ told. IsTrue told ↔ All (λ r. IsSoundRow r.class (row_of r)) rows.now) }
{
    for row in rows {
        if !is_sound(alloc, row)? {
            return Ok(false);
        }
    }
    Ok(true)
}

// A store of these rows, as they are.
fn fed(alloc: Global, rows: Vec<KeptRow>) -> Result<ReadableStore, NoMemory>
    requires ordered { are_in_order rows.items ≡ true }
    requires sound { All (λ r. IsSoundRow r.class (row_of r)) rows.items }
    ensures { IfOk result (λ store. store.state ≡ state_of_rows rows.items) }
{
    let mut store = ReadableStore::new(alloc);
    feed(alloc, store.as_linked_mut(), rows)?;
    Ok(store)
}
