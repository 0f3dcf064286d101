//! A sink in memory, and that a case of a table holds. (A message that is formatted would take the prover some twenty seconds.)
ghost use Rattle.std.specs.Prelude.{Some};

use outside::{Failed, Sink};
use std::alloc::Global;
use std::process::Abort;

pub(crate) fn expect(rt: &impl Abort, holds: bool, case: &str) {
    if !holds {
        rt.panic(case);
    }
}

pub(crate) fn expect_at(rt: &impl Abort, holds: bool, number: u32) {
    if !holds {
        rt.panic(number);
    }
}

/// A sink in memory that takes so many pieces, and then fails.
#[derive(Drop)]
pub(crate) struct Short {
    pub(crate) bytes: Vec<u8>,
    pieces: u64,
    faults: u64,
}

impl Short {
    pub(crate) fn new(alloc: Global, pieces: u64) -> Short {
        Short {
            bytes: Vec::new(alloc),
            pieces,
            faults: 0,
        }
    }
}

impl Sink for Short {
    ghost written = { λ s. Some s.bytes.items };

    ghost faults = { λ s. s.faults };

    fn write_all(&mut self, piece: &[u8]) -> Result<(), Failed> {
        if self.pieces > 0 && self.bytes.extend_from_slice(piece).is_ok() {
            self.pieces -= 1;
            return Ok(());
        }
        self.faults = self.faults.saturating_add(1);
        Err(Failed)
    }
}
