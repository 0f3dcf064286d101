use std::mem;

/// What becomes of the memory that a catalogue holds once its log is closed.
#[derive(Clone, Copy, Debug, PartialEq, Eq)]
pub enum OnClose {
    /// It is given back, which takes a microsecond a record or more.
    Free,
    /// It stays taken until the process ends: for a command, whose end that is.
    Leak,
}

impl OnClose {
    pub(crate) fn end<T: Drop>(self, held: T) {
        match self {
            OnClose::Free => drop(held),
            OnClose::Leak => mem::forget(held),
        }
    }
}
