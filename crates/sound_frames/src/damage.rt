//! The damages of a log.

/// What is wrong at a place of a log.
#[derive(Clone, Copy, Debug, PartialEq, Eq)]
pub enum Reason {
    /// A byte of the header is another, or names another version than its first frame is of.
    WrongHeader,
    /// A gate is closed, and two sound frames stand behind it, one behind the other.
    ClosedGate,
    /// Bytes stand behind the closed gate at which reading ends, no more than a crash leaves.
    Torn,
    /// More bytes stand there than a crash leaves, and no two sound frames.
    Lost,
    /// A gate is open, and no whole frame stands behind it.
    NoFrame,
    /// A gate is open, and the payload of the frame behind it isn't valid.
    NotValid,
}

/// A damage, at the place of the byte or of the gate.
#[derive(Clone, Copy, Debug, PartialEq, Eq)]
pub struct Damage {
    pub place: u64,
    pub reason: Reason,
}
