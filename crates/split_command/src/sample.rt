//! Keys of bibliographic records, from which the bounds of parts are chosen.
ghost use Rattle.std.specs.Prelude.{◌≡◌, ◌≢◌, ◌<◌, ◌≤◌, [], length, IfOk, OnOk};
ghost use Rattle.std.specs.List.Sorted.{IsSorted};
ghost use Rattle.marc_types.specs.Order.{key_cmp};
ghost use Rattle.split_command.specs.Bounding.{AreBoundsOf};

use marc_types::{Key, Keys, NoMemory, TryCopy};
use std::alloc::Global;

/// The most keys that are kept.
const MOST_KEYS: u64 = 65_536;

/// Keys of the records that were seen, each as likely as another, at most 65,536 of them. Which they are is nowhere promised.
#[derive(Drop)]
pub struct Sample {
    keys: Vec<Key>,
    seen: u64,
    draws: u64,
    ghost few: { length keys.items ≤ 65536 },
}

impl Sample {
    /// No key yet.
    pub fn new(alloc: Global) -> Sample
        ensures { result.keys.items ≡ [] }
    {
        Sample {
            keys: Vec::new(alloc),
            seen: 0,
            draws: 1,
        }
    }

    // A number below the bound, from a generator of its own.
    fn draw_below(&mut self, bound: u64) -> u64
        requires { 0 < bound }
        ensures keys { self.new.keys ≡ self.old.keys }
    {
        self.draws = self
            .draws
            .wrapping_mul(6_364_136_223_846_793_005)
            .wrapping_add(1_442_695_040_888_963_407);
        (self.draws >> 16) % bound
    }

    /// Takes the key of one more record, or passes over it.
    pub fn offer(&mut self, key: &Key, alloc: Global) -> Result<(), NoMemory>
        ensures { OnOk result (self.new.keys.items ≢ []) }
    {
        self.seen = self.seen.saturating_add(1);
        if (self.keys.len() as u64) < MOST_KEYS {
            self.keys.push(key.copy(alloc)?)?;
            return Ok(());
        }
        let place = self.draw_below(self.seen.max(1));
        if let Some(kept) = self.keys.get_mut(place as usize) {
            *kept = key.copy(alloc)?;
        }
        Ok(())
    }

    /// Bounds for so many parts, chosen so that these have like sizes.
    #[tactic(auto, using(crate::proofs::Chosen::bounds_unsorted))]
    pub fn into_bounds(self, alloc: Global, parts: u64) -> Result<Keys, NoMemory>
        requires some { 0 < parts }
        requires most { parts ≤ 1024 }
        ensures ascend { IfOk result (IsSorted key_cmp) }
        ensures many { IfOk result (AreBoundsOf self.keys.items parts) }
    {
        let Sample { mut keys, .. } = self;
        keys.as_mut_slice().sort_unstable();
        let bounds = chosen(alloc, keys.as_slice(), parts)?;
        Ok(Keys::from_vec(bounds))
    }
}

/// Of keys in their order, those at equal distances, one between each two parts.
#[tactic(auto, using(crate::proofs::Chosen::place_fits, crate::proofs::Chosen::place_within, crate::proofs::Chosen::chosen_none, crate::proofs::Chosen::chosen_more, crate::proofs::Chosen::bounds_chosen))]
fn chosen(alloc: Global, keys: &[Key], parts: u64) -> Result<Vec<Key>, NoMemory>
    requires some { 0 < parts }
    requires most { parts ≤ 1024 }
    requires few { length keys.now ≤ 65536 }
    requires sorted { IsSorted key_cmp keys.now }
    ensures ascend { IfOk result (λ bounds. IsSorted key_cmp bounds.items) }
    ensures many { IfOk result (λ bounds. AreBoundsOf keys.now parts bounds.items) }
{
    let mut bounds = Vec::new(alloc);
    if keys.is_empty() {
        return Ok(bounds);
    }
    for part in 1..parts {
        let place = part * keys.len() as u64 / parts;
        bounds.push(keys[place as usize].copy(alloc)?)?;
    }
    Ok(bounds)
}
