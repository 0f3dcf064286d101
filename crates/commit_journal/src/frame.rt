ghost use Rattle.std.specs.Prelude.{◌≡◌, ◌↔◌, List, [], length, IsTrue};
ghost use Rattle.commit_journal.specs.declared.frame.Frame.{Frame};

use outside::Bytes;
use std::marker::Model;

/// A payload of a log, and the place of its gate, counted from the log's first byte.
#[derive(Debug, Drop)]
pub struct Frame {
    pub gate: u64,
    pub payload: Bytes,
}

/// Frames in the order of their places.
#[derive(Debug, Drop)]
pub struct Frames {
    items: Vec<Frame>,
}

impl Model for Frames {
    ghost use Rattle.std.specs.Prelude.{List};
    ghost use Rattle.commit_journal.specs.declared.frame.Frame.{Frame};

    ghost Value = { List Frame };

    ghost view = { λ f. f.items.items };
}

impl Frames {
    /// Takes over the vector; takes no memory.
    pub fn from_vec(items: Vec<Frame>) -> Self
        ensures { result ≡ items.items }
    {
        Frames { items }
    }

    /// Gives the vector back; takes no memory.
    pub fn into_vec(self) -> Vec<Frame>
        ensures { result.items ≡ self }
    {
        self.items
    }

    /// The frames in their order.
    pub fn as_slice(&self) -> &[Frame]
        ensures { result.now ≡ self.now }
    {
        self.items.as_slice()
    }

    /// How many there are.
    pub fn len(&self) -> usize
        ensures { result ≡ length self.now }
    {
        self.items.len()
    }

    /// Whether there is none.
    pub fn is_empty(&self) -> bool
        ensures { IsTrue result ↔ (self.now ≡ []) }
    {
        self.items.is_empty()
    }
}
