//! How many holdings have their record, and how many wait for it.
ghost use Rattle.std.specs.Prelude.{◌≡◌, [], length, IfOk};
ghost use Rattle.catalogue_rules.specs.Settle.{state_of};
ghost use Rattle.holdings_export.specs.Output.{is_attached, attached_holdings, waiting_holdings};

use catalogue_core::Catalogue;
use holdings::{HoldingShelf, PackedHolding};
use marc_types::{Class, NoMemory};
use packed_keys::PackedKey;
use std::alloc::Global;

/// How many holdings of a shelf belong to a record that is kept, and how many wait for theirs.
#[derive(Clone, Copy, Debug, PartialEq, Eq)]
pub struct ShelfCounts {
    pub attached: u64,
    pub waiting: u64,
}

/// Whether the record that a holding belongs to is kept.
pub(crate) fn is_attached(
    alloc: Global,
    core: &Catalogue,
    key: &PackedKey,
    held: &PackedHolding,
) -> Result<bool, NoMemory>
    requires { core.now.staged ≡ [] }
    ensures { IfOk result (λ attached. attached ≡ is_attached (state_of core.now.history) (key.now, held.now)) }
{
    let target = held.target(alloc, key)?;
    Ok(core.look(Class::Bibliographic, &target).is_some())
}

/// How many holdings of a shelf belong to a record that is kept, and how many wait for theirs.
pub fn count(alloc: Global, core: &Catalogue, shelf: &HoldingShelf) -> Result<ShelfCounts, NoMemory>
    requires { core.now.staged ≡ [] }
    ensures attached { IfOk result (λ counts. counts.attached ≡ length (attached_holdings (state_of core.now.history) shelf.now)) }
    ensures waiting { IfOk result (λ counts. counts.waiting ≡ length (waiting_holdings (state_of core.now.history) shelf.now)) }
{
    // so many can be counted
    let _holdings = shelf.len();
    let mut counts = ShelfCounts {
        attached: 0,
        waiting: 0,
    };
    for (key, held) in shelf.rows() {
        let attached = is_attached(alloc, core, key, held)?;
        counts.attached += u64::from(attached);
        counts.waiting += u64::from(!attached);
    }
    Ok(counts)
}
