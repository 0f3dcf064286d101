ghost use Rattle.std.specs.Prelude.{◌≤◌};

use std::sync::Wait;

/// The most entries that a loader keeps before it takes a turn.
pub const LARGEST_BATCH: u32 = 32;

/// Where loaders can be held back, so that a test can choose how they alternate. No clause speaks of `before` and `ended`.
pub trait Gate {
    /// A loader calls it once before each call for its next piece, with the ordinal that the piece would have (also
    /// where the answer is the end), and goes on when it returns.
    fn before(&self, rt: &impl Wait, loader: u32, ordinal: u64);

    /// A loader calls it once where its file's end is the answer, with the number of the file's pieces.
    fn ended(&self, rt: &impl Wait, loader: u32, pieces: u64);

    /// How many entries a loader keeps before it takes a turn.
    fn batch(&self) -> u32
        ensures at_least_one { 1 ≤ result }
        ensures at_most { result ≤ LARGEST_BATCH };
}
