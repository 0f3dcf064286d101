//! The gates of a log's bytes, and the frames behind them.
ghost use Rattle.std.specs.Prelude.{◌≡◌, ◌≤◌, ◌<◌, ◌+◌, true, false, length, IfSome, IfNone};
ghost use Rattle.commit_journal.specs.Log.{payload_length, has_frame, payload_of};
ghost use Rattle.sound_frames.specs.Sound.{is_closed_gate, behind_gate, next_gate};

use commit_journal::{CLOSED_GATE, HEAD_BYTES, LARGEST_PAYLOAD, LENGTH_BYTES};

/// The length with which bytes begin.
#[tactic(auto, using(crate::proofs::Frames::length_bytes))]
fn length_in(bytes: &[u8]) -> usize
    requires { 4 ≤ length bytes.now }
    ensures { result ≡ payload_length bytes.now }
{
    u32::from_be_bytes([bytes[0], bytes[1], bytes[2], bytes[3]]) as usize
}

/// The payload of the whole frame that stands here, where one does.
#[tactic(auto, using(crate::proofs::Frames::whole_here, crate::proofs::Frames::none_short, crate::proofs::Frames::none_empty, crate::proofs::Frames::none_great, crate::proofs::Frames::none_cut))]
fn frame_in(bytes: &[u8]) -> Option<&[u8]>
    ensures whole { IfSome result (λ payload. has_frame bytes.now ≡ true) }
    ensures payload { IfSome result (λ payload. payload.now ≡ payload_of bytes.now) }
    ensures none { IfNone result (has_frame bytes.now ≡ false) }
{
    if bytes.len() < LENGTH_BYTES {
        return None;
    }
    let length = length_in(bytes);
    if length == 0 {
        return None;
    }
    if length > LARGEST_PAYLOAD {
        return None;
    }
    if bytes.len() <= LENGTH_BYTES + length {
        return None;
    }
    Some(&bytes[LENGTH_BYTES..LENGTH_BYTES + length])
}

/// The payload of the whole frame behind the gate at a place, where one stands there.
pub(crate) fn frame_behind(log: &[u8], place: usize) -> Option<&[u8]>
    requires { place < length log.now }
    ensures whole { IfSome result (λ payload. has_frame (behind_gate log.now place) ≡ true) }
    ensures payload { IfSome result (λ payload. payload.now ≡ payload_of (behind_gate log.now place)) }
    ensures none { IfNone result (has_frame (behind_gate log.now place) ≡ false) }
{
    frame_in(&log[place + 1..])
}

/// Where the gate stands behind the whole frame of the gate at a place, where one stands there.
#[tactic(auto, using(crate::proofs::Frames::next_of, crate::proofs::Frames::next_inside))]
pub(crate) fn next_gate(log: &[u8], place: usize) -> Option<usize>
    requires { place < length log.now }
    ensures value { IfSome result (λ next. next ≡ next_gate log.now place) }
    ensures within { IfSome result (λ next. next < length log.now) }
    ensures further { IfSome result (λ next. place < next) }
    ensures none { IfNone result (has_frame (behind_gate log.now place) ≡ false) }
{
    let payload = frame_behind(log, place)?;
    Some(place + HEAD_BYTES + payload.len())
}

/// Whether the gate at a place is closed.
pub(crate) fn is_closed_gate(log: &[u8], place: usize) -> bool
    requires { place < length log.now }
    ensures { result ≡ is_closed_gate log.now place }
{
    log[place] == CLOSED_GATE
}
