//! The time in which files are loaded, for what is done beside.
use std::sync::Wait;
use std::sync::atomic::{AtomicU64, Ordering};
use std::time::Duration;

/// So many milliseconds are rested at most by who is beside.
const REST: u64 = 1;

/// The time in which files are loaded, as those see it who do something meanwhile.
#[derive(Drop)]
pub struct Meanwhile {
    // 0 until the loaders have ended, and then 1.
    over: AtomicU64,
}

impl Meanwhile {
    /// It begins.
    pub fn begin() -> Meanwhile {
        Meanwhile {
            over: AtomicU64::new(0),
        }
    }

    /// Whether the loaders have ended.
    pub fn is_over(&self) -> bool {
        self.over.load(Ordering::SeqCst) != 0
    }

    /// Ends it, and wakes those who rest.
    pub fn end(&self) {
        self.over.store(1, Ordering::SeqCst);
        self.over.wake_all();
    }

    /// Rests a millisecond, or until the loaders have ended.
    pub fn rest<H: Wait>(&self, rt: &H) {
        self.rest_for(rt, REST);
    }

    /// Rests so many milliseconds, or until the loaders have ended.
    pub(crate) fn rest_for<H: Wait>(&self, rt: &H, milliseconds: u64) {
        self.over
            .park_timeout(rt, 0, Duration::from_millis(milliseconds));
    }
}
