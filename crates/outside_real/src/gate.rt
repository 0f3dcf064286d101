ghost use Rattle.std.specs.Prelude.{◌≡◌, ◌≤◌};

use outside::{Gate, LARGEST_BATCH};
use std::sync::Wait;

/// A gate that holds nobody back.
#[derive(Clone, Copy, Debug)]
pub struct OpenGate;

impl Gate for OpenGate {
    fn before(&self, _rt: &impl Wait, _loader: u32, _ordinal: u64) {}

    fn ended(&self, _rt: &impl Wait, _loader: u32, _pieces: u64) {}

    fn batch(&self) -> u32 {
        LARGEST_BATCH
    }
}
