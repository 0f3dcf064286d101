use marc_types::{Sequence, Text};

/// A file to be loaded: where its bytes come from, and its library code.
#[derive(Debug, Drop)]
pub struct InputFile<S> {
    pub source: S,
    pub code: Text,
}

/// Files that are to be loaded, in the order of the words.
pub type InputFiles<S> = Sequence<InputFile<S>>;
