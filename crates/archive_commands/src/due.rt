/// What is due of a journal's history.
#[derive(Clone, Copy, Debug, PartialEq, Eq)]
pub enum Due<'a> {
    /// The export of its records: of all keys, or of those with that code.
    Export(Option<&'a str>),
    /// The report on its records.
    Report,
}
