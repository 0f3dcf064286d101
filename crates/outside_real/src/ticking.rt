//! When progress is told.
use std::time::Clock;

/// How many seconds lie between two lines on a terminal.
pub const SECONDS: u64 = 5;

/// How many pieces lie between two lines elsewhere.
pub const PIECES: u64 = 100_000;

/// How many bytes lie between two lines elsewhere: a quarter of a gibibyte.
pub const BYTES: u64 = 268_435_456;

/// The clock's seconds; none where it fails.
pub fn seconds<R: Clock>(rt: &R) -> Option<u64> {
    match rt.monotonic() {
        Ok(time) => Some(time.as_secs()),
        Err(_) => None,
    }
}

/// Whether so much was passed since that many, counted in strides.
pub fn is_past(stride: u64, before: u64, now: u64) -> bool {
    match (before.checked_div(stride), now.checked_div(stride)) {
        (Some(before), Some(now)) => before < now,
        _ => false,
    }
}
