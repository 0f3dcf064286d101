//! The gates of a journal's bytes.
ghost use Rattle.std.specs.Prelude.{◌≡◌, ℕ, ◌≤◌, List, length, drop, IfOk, OnOk};
ghost use Rattle.commit_journal.specs.Log.{payload_length};
ghost use Rattle.journal_verification.specs.Coming.{Comes, HasReadCause};
ghost use Rattle.journal_verification.specs.Gates.{GateSays, GateIn};

use crate::coming::Coming;
use crate::fault::ReadFault;
use commit_journal::{CLOSED_GATE, HEAD_BYTES, LARGEST_PAYLOAD};
use outside::Source;

/// What stands at a gate's place.
#[derive(Clone, Copy, Debug, PartialEq, Eq)]
pub enum Gate {
    /// The gate is closed.
    Closed,
    /// An open gate, and a whole frame of a payload of that length.
    Frame(usize),
    /// No gate, or an open one and no whole frame.
    Lost,
}

/// The length of the payload behind a gate.
#[tactic(auto, using(crate::proofs::Gates::length_bytes))]
fn length_behind(window: &[u8]) -> usize
    requires { 5 ≤ length window.now }
    ensures { result ≡ payload_length (drop 1 window.now) }
{
    u32::from_be_bytes([window[1], window[2], window[3], window[4]]) as usize
}

/// Reads a gate and the frame behind it, where there is one.
#[tactic(auto, using(crate::proofs::Gates::no_gate, crate::proofs::Gates::closed_here, crate::proofs::Gates::short_head))]
pub fn next_gate<S: Source>(coming: &mut Coming<S>) -> Result<Gate, ReadFault>
    ensures says { IfOk result (λ gate. (b : List ℕ) → Comes coming.old.window.items (S.left coming.old.source) b → GateSays b gate) }
    ensures within { IfOk result (GateIn coming.new.window.items) }
    ensures comes { OnOk result ((b : List ℕ) → Comes coming.old.window.items (S.left coming.old.source) b →
        Comes coming.new.window.items (S.left coming.new.source) b) }
    ensures place { coming.new.place ≡ coming.old.place }
    ensures hasher { coming.new.hasher ≡ coming.old.hasher }
    ensures cause { HasReadCause (S.faults coming.old.source) (S.faults coming.new.source) result }
{
    if !coming.fill(1)? {
        return Ok(Gate::Lost);
    }
    if coming.window()[0] == CLOSED_GATE {
        return Ok(Gate::Closed);
    }
    if !coming.fill(HEAD_BYTES)? {
        return Ok(Gate::Lost);
    }
    let count = length_behind(coming.window());
    if count == 0 || count > LARGEST_PAYLOAD {
        return Ok(Gate::Lost);
    }
    if !coming.fill(HEAD_BYTES + count + 1)? {
        return Ok(Gate::Lost);
    }
    Ok(Gate::Frame(count))
}
