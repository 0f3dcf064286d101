use marc_types::{Field, Kind};

/// The heading of an authority as a field of its own, and its kind.
#[derive(Debug, Drop)]
pub struct OwnHeading {
    pub kind: Kind,
    pub field: Field,
}
