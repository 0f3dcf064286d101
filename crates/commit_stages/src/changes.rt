/// What one commit did to a state: of the committed record's heading fields, how many are linked, ambiguous and unlinked; and
/// how many other records it changed.
#[derive(Clone, Copy, Debug, PartialEq, Eq)]
pub struct CommitCounts {
    pub linked: u32,
    pub ambiguous: u32,
    pub unlinked: u32,
    pub changed_records: u64,
}
