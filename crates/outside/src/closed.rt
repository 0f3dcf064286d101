ghost use Rattle.std.specs.Prelude.{◌≡◌, [], ◌∷◌};

use crate::Source;
use std::fmt;
use std::marker::Model;
use std::snapshot::Snapshot;

/// Sources that were given up, as clauses see them: what each had left, the newest first. It takes no memory.
#[cycle(given_up)]
#[derive(Drop)]
pub struct GivenUp<S: Source> {
    first: Given<S>,
}

#[cycle(given_up)]
#[derive(Drop)]
enum Given<S: Source> {
    None,
    One(Snapshot<S>, Snapshot<GivenUp<S>>),
}

impl<S: Source> Model for GivenUp<S> {
    ghost use Rattle.std.specs.Prelude.{ℕ, List, Option, length};

    ghost Value = { List (Option (List ℕ)) };

    ghost use Rattle.outside.specs.Lefts.{lefts_of};

    ghost view = { λ g. lefts_of S.left g.first };

    ghost size = { length };

    ghost use Rattle.std.proofs.Common.{arith};

    ghost size_decreases = { λ g h. Prim.grind (arith) };
}

impl<S: Source> fmt::Debug for GivenUp<S> {
    fn fmt<W: fmt::Write>(&self, f: &mut fmt::Formatter<W>) -> fmt::Result {
        f.write_str("GivenUp")
    }
}

impl<S: Source> GivenUp<S> {
    /// No source was given up.
    pub fn none() -> Self
        ensures { result ≡ [] }
    {
        GivenUp { first: Given::None }
    }

    /// A source is given up.
    pub fn give_up(&mut self, source: &S)
        ensures { self.new ≡ S.left source.now ∷ self.old }
    {
        let older = Snapshot::of(self);
        *self = GivenUp {
            first: Given::One(Snapshot::of(source), older),
        };
    }
}
