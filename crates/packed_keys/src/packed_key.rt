ghost use Rattle.std.specs.Prelude.{◌≡◌, IfOk};

use marc_types::{Key, NoMemory, Text};
use std::alloc::Global;
use std::cmp::Ordering;
use std::marker::Model;

/// A key in one text of exactly its length, its number behind its code, since a table of many takes less memory so. Contracts see
/// it as the key, and it is ordered as keys are.
#[derive(Drop)]
pub struct PackedKey {
    text: String,
    code_len: usize,
}

impl Model for PackedKey {
    ghost use Rattle.std.specs.Prelude.{take, drop, string_bytes, IsCharBoundary};
    ghost use Rattle.marc_types.specs.declared.key.Key.{Key};

    ghost Value = { Key };

    ghost view = { λ k. record { code = take k.code_len (string_bytes k.text); number = drop k.code_len (string_bytes k.text) } };

    ghost invariant = { λ k. IsCharBoundary (string_bytes k.text) k.code_len };
}

impl PackedKey {
    /// An equal key.
    pub fn of(alloc: Global, key: &Key) -> Result<PackedKey, NoMemory>
        ensures { IfOk result (λ packed. packed ≡ key.now) }
    {
        let code = key.code.as_str();
        let number = key.number.as_str();
        let code_len = code.len();
        let mut text = String::with_capacity(alloc, code_len + number.len())?;
        text.push_str(code)?;
        text.push_str(number)?;
        Ok(PackedKey { text, code_len })
    }

    /// The bytes of the code.
    pub fn code(&self) -> &[u8]
        ensures { result.now ≡ self.now.code }
    {
        &self.text.as_bytes()[..self.code_len]
    }

    /// The bytes of the number.
    pub fn number(&self) -> &[u8]
        ensures { result.now ≡ self.now.number }
    {
        &self.text.as_bytes()[self.code_len..]
    }

    /// The code as a text of its own.
    pub fn code_text(&self, alloc: Global) -> Result<Text, NoMemory>
        ensures { IfOk result (λ text. text ≡ self.now.code) }
    {
        Text::from_str(alloc, &self.text.as_str()[..self.code_len])
    }
}

impl PartialEq for PackedKey {
    ghost use Rattle.marc_types.specs.Order.{key_cmp, key_cmp_total};
    ghost use Rattle.std.specs.Ordering.{eq_by_cmp};
    ghost use Rattle.std.specs.Cmp.{eq_by_cmp_equiv, partial_equiv_from_equiv};

    ghost eq = { eq_by_cmp key_cmp };

    ghost laws = { partial_equiv_from_equiv (eq_by_cmp_equiv key_cmp_total) };

    fn eq(&self, other: &Self) -> bool {
        self.cmp(other).is_eq()
    }
}

impl Eq for PackedKey {
    ghost use Rattle.marc_types.specs.Order.{key_cmp_total};
    ghost use Rattle.std.specs.Cmp.{eq_by_cmp_equiv};

    ghost laws = { eq_by_cmp_equiv key_cmp_total };
}

impl PartialOrd for PackedKey {
    ghost use Rattle.marc_types.specs.Order.{key_cmp, key_cmp_total};
    ghost use Rattle.std.specs.Ordering.{as_partial_cmp};
    ghost use Rattle.std.specs.Cmp.{partial_order_from_total};

    ghost partial_cmp = { as_partial_cmp key_cmp };

    ghost laws = { partial_order_from_total key_cmp_total };

    fn partial_cmp(&self, other: &Self) -> Option<Ordering> {
        Some(self.cmp(other))
    }
}

impl Ord for PackedKey {
    ghost use Rattle.marc_types.specs.Order.{key_cmp, key_cmp_total};
    ghost use Rattle.std.proofs.Common.{refl};

    ghost cmp = { key_cmp };

    ghost total = { key_cmp_total };

    ghost matches_partial_cmp = { λ x y. refl };

    ghost matches_eq = { λ x y. refl };

    #[tactic(auto, unfolding(marc_types::specs::Order::key_cmp))]
    fn cmp(&self, other: &Self) -> Ordering {
        self.code()
            .cmp(other.code())
            .then_with(|| self.number().cmp(other.number()))
    }
}
