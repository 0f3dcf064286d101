use outside::Bytes;

/// A call that may have changed a disk, and whether it succeeded.
#[derive(Debug, Drop)]
pub enum Change {
    /// These bytes were written from that place on.
    Write(u64, Bytes, bool),
    /// The disk was cut to that length.
    Cut(u64, bool),
    /// The disk was synced.
    Sync(bool),
}
