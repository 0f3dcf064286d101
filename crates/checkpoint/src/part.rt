use kept_rows::KeptRows;

/// A payload of a log of checkpoints.
#[derive(Debug, Drop)]
pub enum Part {
    /// A checkpoint begins.
    Begin,
    /// Kept records of the checkpoint that was begun.
    Rows(KeptRows),
    /// A checkpoint ends: so many entries the history had, and so many records the checkpoint has.
    End { entries: u64, count: u64 },
}
