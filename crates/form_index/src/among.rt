/// Among which authorities candidates are sought.
#[derive(Clone, Copy, Debug, PartialEq, Eq)]
pub enum Among {
    /// All that the index has.
    All,
    /// Those whose heading has no subdivision.
    Bare,
}

/// How a row has a form: as its own heading, or as one from which it is referred to.
#[derive(Clone, Copy, Debug)]
pub(crate) enum By {
    Established,
    SeeFrom,
}
