ghost use Rattle.std.specs.Prelude.{◌≡◌, ◌+◌, ◌-◌, ◌≤◌, List, [], ◌∷◌, length, drop, IfOk, OnOk, OnErr};
ghost use Rattle.outside_mem.specs.Disk.{TapeState, image_after};

use crate::change::Change;
use crate::crash::replay;
use std::alloc::{AllocError, Global};
use std::marker::Model;

/// Bytes that change, with what they were at the start and each change since.
#[derive(Debug, Drop)]
pub struct Tape {
    // Kept from the first change on.
    start: Option<Vec<u8>>,
    changes: Vec<Change>,
    bytes: Vec<u8>,
}

impl Model for Tape {
    ghost use Rattle.std.specs.Prelude.{reverse};
    ghost use Rattle.outside_mem.specs.Disk.{TapeState, start_of};

    ghost Value = { TapeState };

    ghost view = { λ t. record { first = start_of t.start t.bytes.items; changes = reverse t.changes.items; bytes = t.bytes.items } };
}

impl Tape {
    /// Bytes that haven't changed.
    pub fn new(alloc: Global, bytes: Vec<u8>) -> Self
        ensures { result ≡ record { first = bytes.items; changes = []; bytes = bytes.items } }
    {
        Tape {
            start: None,
            changes: Vec::new(alloc),
            bytes,
        }
    }

    /// The content now.
    pub fn bytes(&self) -> &[u8]
        ensures { result.now ≡ self.now.bytes }
    {
        self.bytes.as_slice()
    }

    /// Keeps the change, which leaves these bytes.
    #[tactic(auto, using(crate::proofs::Tapes::latest))]
    pub fn change(&mut self, alloc: Global, change: Change, next: Vec<u8>) -> Result<(), AllocError>
        ensures ok { OnOk result (self.new ≡ record { first = self.old.first; changes = change ∷ self.old.changes; bytes = next.items }) }
        ensures err { OnErr result (self.new ≡ self.old) }
    {
        if self.start.is_none() {
            self.start = Some(self.bytes.to_vec(alloc)?);
        }
        self.changes.push(change)?;
        self.bytes = next;
        Ok(())
    }

    /// How many moments there were: the start, and one after each change.
    #[tactic(auto, using(crate::proofs::Tapes::as_many))]
    pub fn moments(&self) -> u64
        ensures { result ≡ length self.now.changes + 1 }
    {
        self.changes.len() as u64 + 1
    }

    /// The image that a crash after so many changes leaves by a choice.
    #[tactic(auto, using(crate::proofs::Crashes::reverse_front, crate::proofs::Tapes::as_many))]
    pub fn image_at(&self, alloc: Global, moment: usize, choice: u8) -> Result<Vec<u8>, AllocError>
        requires { moment ≤ length self.now.changes }
        ensures { IfOk result (λ image. image.items
            ≡ image_after choice self.now.first (drop (length self.now.changes - moment) self.now.changes)) }
    {
        let start = match &self.start {
            Some(start) => start.as_slice(),
            None => self.bytes.as_slice(),
        };
        replay(alloc, start, &self.changes[..moment], choice)
    }
}
