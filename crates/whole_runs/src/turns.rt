//! How loaders take turns.
use outside::{Gate, LARGEST_BATCH};
use std::sync::Wait;
use std::sync::atomic::{AtomicU32, Ordering};
use std::thread;

/// How loaders take turns: as it happens; one entry a turn; or two loaders in an order of their own, one entry a turn.
#[derive(Clone, Copy)]
pub enum Turns {
    Open,
    OneByOne,
    Alternating,
}

impl Turns {
    /// The order of turns by its name in a script.
    pub fn named(name: &str) -> Option<Turns> {
        match name {
            "open" => Some(Turns::Open),
            "one_by_one" => Some(Turns::OneByOne),
            "alternating" => Some(Turns::Alternating),
            _ => None,
        }
    }
}

/// The gate of one run. Where turns alternate, the first call of the second loader waits for the second call of the first, that
/// one for the second call of the second loader, and that one for the third call of the first.
#[derive(Drop)]
pub struct Doorkeeper {
    turns: Turns,
    called: AtomicU32,
}

const FIRST_AT_2: u32 = 1;

const SECOND_AT_2: u32 = 2;

const FIRST_AT_3: u32 = 4;

/// The yields after which a call waits no longer.
const YIELDS: u32 = 10_000_000;

impl Doorkeeper {
    /// A gate of this order, at which no loader has called yet.
    pub fn new(turns: Turns) -> Doorkeeper {
        Doorkeeper {
            turns,
            called: AtomicU32::new(0),
        }
    }

    /// Notes that a call was made, and waits for another.
    fn wait_for(&self, own: u32, awaited: u32) {
        self.called.fetch_or(own, Ordering::SeqCst);
        for _ in 0..YIELDS {
            if self.called.load(Ordering::SeqCst) & awaited == awaited {
                return;
            }
            thread::yield_now();
        }
    }
}

impl Gate for Doorkeeper {
    fn before(&self, _rt: &impl Wait, loader: u32, ordinal: u64) {
        if let Turns::Alternating = self.turns {
            match (loader, ordinal) {
                (1, 1) => self.wait_for(0, FIRST_AT_2),
                (0, 2) => self.wait_for(FIRST_AT_2, SECOND_AT_2),
                (1, 2) => self.wait_for(SECOND_AT_2, FIRST_AT_3),
                (0, 3) => self.wait_for(FIRST_AT_3, 0),
                _ => {}
            }
        }
    }

    fn ended(&self, _rt: &impl Wait, _loader: u32, _pieces: u64) {}

    fn batch(&self) -> u32 {
        match self.turns {
            Turns::Open => LARGEST_BATCH,
            Turns::OneByOne | Turns::Alternating => 1,
        }
    }
}
