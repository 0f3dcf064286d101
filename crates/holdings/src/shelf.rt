//! Holdings in key order.
ghost use Rattle.std.specs.Prelude.{◌≡◌, ◌<◌, ◌^◌, [], length, OnOk, OnErr};
ghost use Rattle.holdings.specs.Shelves.{take_holding};

use crate::holding::Holding;
use crate::packed::PackedHolding;
use marc_types::NoMemory;
use packed_keys::PackedKey;
use std::alloc::Global;
use std::collections::BTreeMap;
use std::collections::btree_map::Iter;
use std::marker::Model;

/// Holdings, each under its key. Contracts see them in key order.
#[derive(Drop)]
pub struct HoldingShelf {
    rows: BTreeMap<PackedKey, PackedHolding>,
}

impl Model for HoldingShelf {
    ghost use Rattle.std.specs.Prelude.{List};
    ghost use Rattle.holdings.specs.Shelves.{ShelfRow};

    ghost Value = { List ShelfRow };

    ghost view = { λ s. s.rows.entries };
}

impl HoldingShelf {
    /// No holding.
    pub fn new(alloc: Global) -> HoldingShelf
        ensures { result ≡ [] }
    {
        HoldingShelf {
            rows: BTreeMap::new(alloc),
        }
    }

    /// Takes a holding: it comes into its key's place, in place of what stood there, and one that deletes takes that away.
    /// Want of memory changes nothing.
    pub fn put(&mut self, alloc: Global, item: Holding) -> Result<(), NoMemory>
        ensures ok { OnOk result (self.new ≡ take_holding self.old item) }
        ensures err { OnErr result (self.new ≡ self.old) }
    {
        let Holding { key, content } = item;
        let key = PackedKey::of(alloc, &key)?;
        if content.rec.leader.status == b'd' {
            self.rows.remove(&key);
            return Ok(());
        }
        let held = PackedHolding::of(alloc, &content)?;
        self.rows.insert(key, held)?;
        Ok(())
    }

    /// How many holdings there are.
    pub fn len(&self) -> u64
        ensures count { result ≡ length self.now }
        ensures fits { result < 2 ^ 63 }
    {
        self.rows.len() as u64
    }

    /// The holdings in the order of their keys.
    pub fn rows(&self) -> Iter<'_, PackedKey, PackedHolding>
        ensures { result ≡ self.now }
    {
        self.rows.iter()
    }
}
