ghost use Rattle.std.specs.Prelude.{◌≡◌, IfOk};

use crate::copying::{NoMemory, TryCopy};
use crate::key::Key;
use std::alloc::Global;
use std::marker::Model;

/// A key that a tie has, which contracts see as the key. Few ties have one, so it stands apart from them.
#[derive(Debug, Drop)]
pub struct TiedKey {
    key: Box<Key>,
}

impl Model for TiedKey {
    ghost use Rattle.marc_types.specs.declared.key.Key.{Key};

    ghost Value = { Key };

    ghost view = { λ tied. tied.key.value };
}

impl TiedKey {
    /// A key, behind a pointer.
    pub fn new(alloc: Global, key: Key) -> Result<TiedKey, NoMemory>
        ensures { IfOk result (λ made. made ≡ key) }
    {
        Ok(TiedKey {
            key: Box::new(alloc, key)?,
        })
    }

    /// The key itself.
    pub fn key(&self) -> &Key
        ensures { result.now ≡ self.now }
    {
        &self.key
    }
}

impl TryCopy for TiedKey {
    fn copy(&self, alloc: Global) -> Result<Self, NoMemory> {
        TiedKey::new(alloc, self.key.copy(alloc)?)
    }
}

impl PartialEq for TiedKey {
    ghost use Rattle.marc_types.specs.Order.{key_cmp, key_cmp_total};
    ghost use Rattle.std.specs.Ordering.{eq_by_cmp};
    ghost use Rattle.std.specs.Cmp.{eq_by_cmp_equiv, partial_equiv_from_equiv};

    ghost eq = { eq_by_cmp key_cmp };

    ghost laws = { partial_equiv_from_equiv (eq_by_cmp_equiv key_cmp_total) };

    fn eq(&self, other: &TiedKey) -> bool {
        *self.key == *other.key
    }
}

impl Eq for TiedKey {
    ghost use Rattle.marc_types.specs.Order.{key_cmp_total};
    ghost use Rattle.std.specs.Cmp.{eq_by_cmp_equiv};

    ghost laws = { eq_by_cmp_equiv key_cmp_total };
}
