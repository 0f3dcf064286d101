//! A journal over a disk: payloads of any content, each kept whole or not at all, whenever a crash comes.
//!
//! A log is a header, and gates and frames in turn: `UNIONCAT JNL 02` and a line feed, and then a gate of one byte, a
//! frame (the payload's length as four bytes, the high byte first, and the payload), the next gate, and so on. It ends at
//! its first closed gate, whatever stands behind. A payload is appended behind the closed gate, with a closed gate of its
//! own; only once it is synced, its gate is opened in a write of its own.
#![tactic(auto)]

mod begun;
mod calls;
mod fault;
mod format;
mod found;
mod frame;
mod journal;
mod numbers;
mod reading;
mod settling;
mod tail;
mod taker;
mod version;

pub use begun::BegunLog;
pub use fault::{DeviceFault, JournalFault};
pub use format::{
    BLANK_LENGTH, CLOSED_GATE, DIGIT_1, FIRST_GATE, FRAME_ROOM, HEAD_BYTES, HEADER_2, HEADER_BYTES,
    LARGEST_APPEND, LARGEST_PAYLOAD, LENGTH_BYTES, VERSION_PLACE, header_version,
};
pub use found::{FoundLog, find_each};
pub use frame::{Frame, Frames};
pub use journal::Journal;
pub use numbers::{long_number, short_number};
pub use reading::LogEnd;
pub use tail::{Tail, tail_behind};
pub use taker::FrameTaker;
pub use version::Version;
