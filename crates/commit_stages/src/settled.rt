//! A field that has been given its choice.

use field_settling::Held;

/// How a field stands: it is linked, several authorities could be meant, it is a heading field that is neither, or it is no
/// heading field.
#[derive(Clone, Copy, Debug, PartialEq, Eq)]
pub(crate) enum Stands {
    Linked,
    Ambiguous,
    Unlinked,
    NoHeading,
}

/// What a field becomes by its choice, where that is another field, and how it stands then.
#[derive(Debug, Drop)]
pub(crate) struct Settled {
    pub(crate) made: Option<Held>,
    pub(crate) stands: Stands,
}
