/// The numbers of a report's last line: records of each class, and headings that are linked, ambiguous, and neither.
#[derive(Clone, Copy, Debug, PartialEq, Eq)]
pub struct Totals {
    pub authorities: u64,
    pub bibliographic: u64,
    pub linked: u64,
    pub ambiguous: u64,
    pub unlinked: u64,
}
