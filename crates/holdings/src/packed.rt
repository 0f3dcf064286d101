ghost use Rattle.std.specs.Prelude.{◌≡◌, IfOk, IsTrue};
ghost use Rattle.marc_types.specs.Valid.{is_number};
ghost use Rattle.holdings.specs.Shelves.{shelved, target_of_row};

use crate::holding::HoldingContent;
use entry_record::graphic_text;
use iso2709_record::{encode_into, encoded_len};
use marc_types::{Key, NoMemory};
use packed_keys::PackedKey;
use std::alloc::Global;
use std::marker::Model;

/// What a shelf keeps of a holding beside its key: the number in its target, and behind it its record's written form, in one
/// vector of exactly their length. Nothing but that is asked of a holding again.
#[derive(Drop)]
pub struct PackedHolding {
    bytes: Vec<u8>,
    number_len: usize,
}

impl Model for PackedHolding {
    ghost use Rattle.std.specs.Prelude.{◌≤◌, length, take, drop, IsTrue};
    ghost use Rattle.marc_types.specs.Valid.{is_number};
    ghost use Rattle.holdings.specs.Shelves.{ShelvedHolding};

    ghost Value = { ShelvedHolding };

    ghost view = { λ h. record { target_number = take h.number_len h.bytes.items; written = drop h.number_len h.bytes.items } };

    ghost invariant = { λ h. (h.number_len ≤ length h.bytes.items) × IsTrue (is_number (take h.number_len h.bytes.items)) };
}

impl PackedHolding {
    /// What is kept of a holding. The record itself isn't needed behind this.
    #[tactic(auto, using(entry_record::proofs::Written::fitting_length))]
    pub(crate) fn of(alloc: Global, content: &HoldingContent) -> Result<PackedHolding, NoMemory>
        ensures { IfOk result (λ held. held ≡ shelved content.now) }
    {
        let number = content.target.number.as_bytes();
        let number_len = number.len();
        let len = number_len as u64 + encoded_len(&content.rec);
        let mut bytes = Vec::with_capacity(alloc, len as usize)?;
        bytes.extend_from_slice(number)?;
        encode_into(alloc, &content.rec, &mut bytes)?;
        Ok(PackedHolding { bytes, number_len })
    }

    /// The number in the target.
    pub fn target_number(&self) -> &[u8]
        ensures value { result.now ≡ self.now.target_number }
        ensures number { IsTrue (is_number result.now) }
    {
        &self.bytes[..self.number_len]
    }

    /// The record's written form.
    pub fn written(&self) -> &[u8]
        ensures { result.now ≡ self.now.written }
    {
        &self.bytes[self.number_len..]
    }

    /// The target of the holding under that key.
    #[tactic(auto, unfolding(marc_types::specs::Valid::is_number))]
    pub fn target(&self, alloc: Global, key: &PackedKey) -> Result<Key, NoMemory>
        ensures { IfOk result (λ target. target ≡ target_of_row (key.now, self.now)) }
    {
        Ok(Key {
            code: key.code_text(alloc)?,
            number: graphic_text(alloc, self.target_number())?,
        })
    }
}
