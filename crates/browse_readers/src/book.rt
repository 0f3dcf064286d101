//! The list that is taken, as one that only grows: whoever has seen a front of it has a token of that.
ghost use Rattle.std.specs.Prelude.{◌≡◌, ◌++◌, ◌∷◌, [], IsTrue, IsFalse, MatchBool};
ghost use mathlib.Core.List.{IsPrefix};
ghost use Rattle.browse_readers.specs.Rules.{head_of};

use heading_rows::Heading;
use logbook::{Gain, Offer, Plain, Play, Rule, Seen, Start, Word};
use marc_types::Entry;
use std::marker::{Brand, Model, PhantomData};

/// The most entries that a list takes.
const MOST: u64 = 1 << 60;

/// The rule of the book.
pub struct Law;

impl Rule<Entry, u64> for Law {
    ghost use Rattle.std.specs.Prelude.{[]};
    ghost use base.Fml.{ftrue};
    ghost use Rattle.browse_readers.specs.Rules.{IsKept};

    ghost holds = { λ cells log. IsKept cells log };

    ghost first = { [] };

    ghost hinted = { λ n log. Unit {0} };

    ghost shows = { λ log. [] };

    ghost keeps = { λ names log. ftrue };

    ghost moves = { λ ask before after answer. Unit {0} };
}

/// Callers trade nothing.
pub struct Nothing;

impl Gain<Entry, u64> for Nothing {
    ghost use base.Fml.{ftrue};

    ghost after = { λ names about answer. ftrue };
}

/// A step that adds an entry.
pub struct Add;

impl Play<Entry, u64> for Add {
    ghost use Rattle.browse_readers.specs.Rules.{Adds};

    ghost then = { Adds };
}

/// What a step asks for: the entry.
impl Plain<Heading, Entry, u64> for Add {
    ghost use Rattle.std.specs.Prelude.{None};

    ghost ask = { λ heading. heading };

    ghost state = { λ heading. None };
}

/// Which book it is, and the list with which it begins. Each call of a program picks them.
pub trait Naming {
    ghost use Rattle.std.specs.Prelude.{List};
    ghost use Rattle.marc_types.specs.declared.entry.Entry.{Entry};
    ghost use Rattle.logbook.specs.Pages.{Book};

    ghost book: { Book };

    ghost base: { List Entry };
}

impl Naming for Brand {
    ghost use Rattle.std.specs.Prelude.{[]};

    ghost book = { record { number = 0; log_name = 0; cells_name = 0 } };

    ghost base = { [] };
}

/// A book to which nothing was added, and which has no name yet.
pub struct Opened {
    head: Word<Entry, u64, Law>,
    seen: Seen<Entry, u64, Law>,
    ghost empty: { seen.log ≡ [] },
    ghost head_is: { head ≡ head_of seen.book },
}

impl Opened {
    /// A new book, which has no name yet.
    pub fn new() -> Opened {
        let (seen, mut first, _second) = Seen::open(Start::alone(), 0, 0);
        Opened {
            head: Word::tracked(0, &mut first),
            seen,
        }
    }

    /// The book's word under a name, and the front that has the base alone.
    pub(crate) fn named<J: Naming>(self) -> (Book<J>, Front<J>)
        requires { self.seen.book ≡ J.book }
        ensures { result.1 ≡ J.base }
    {
        let Opened { head, seen } = self;
        let book = Book {
            head,
            of: PhantomData,
        };
        let front = Front {
            added: 0,
            seen,
            of: PhantomData,
        };
        (book, front)
    }
}

/// How many entries were added to the base: a word that changes in single steps.
#[derive(Drop)]
pub(crate) struct Book<J: Naming> {
    head: Word<Entry, u64, Law>,
    of: PhantomData<J>,
    ghost head_is: { head ≡ head_of J.book },
}

/// A front of the list that is taken. Contracts see it as that front. Of two fronts of one list the one begins the other.
#[derive(Drop)]
pub struct Front<J: Naming> {
    added: u64,
    seen: Seen<Entry, u64, Law>,
    of: PhantomData<J>,
}

impl<J: Naming> Model for Front<J> {
    ghost use Rattle.std.specs.Prelude.{◌≡◌, ◌++◌, List, length};
    ghost use Rattle.marc_types.specs.declared.entry.Entry.{Entry};

    ghost Value = { List Entry };

    ghost view = { λ f. J.base ++ f.seen.log };

    ghost invariant = { λ f. (f.added ≡ length f.seen.log) × (f.seen.book ≡ J.book) };
}

impl<J: Naming> Front<J> {
    /// A copy.
    pub fn again(&self) -> Front<J>
        ensures { result ≡ self.now }
    {
        Front {
            added: self.added,
            seen: self.seen.again(),
            of: PhantomData,
        }
    }

    /// Whether the other front begins this one. If it doesn't, this one begins it.
    pub fn covers(&self, other: &Front<J>) -> bool
        ensures covers { IsTrue result → IsPrefix other.now self.now }
        ensures begins { IsFalse result → IsPrefix self.now other.now }
    {
        let mut both = self.seen.again();
        both.learn(&other.seen);
        other.added <= self.added
    }

    /// Whether it is the same front.
    pub(crate) fn equals(&self, other: &Front<J>) -> bool
        ensures { IsTrue result → self.now ≡ other.now }
    {
        let mut both = self.seen.again();
        both.learn(&other.seen);
        other.added == self.added
    }

    #[tactic(auto, using(crate::proofs::Fronts::begins_itself, crate::proofs::Fronts::added_behind))]
    /// Adds an entry to all that was seen, and tells whether it did. It doesn't where another has added one, or there are too many.
    pub(crate) fn add(&mut self, book: &Book<J>, heading: &Heading) -> bool
        ensures { MatchBool result (self.new ≡ self.old ++ heading.now ∷ []) (IsPrefix self.old self.new) }
    {
        if self.added >= MOST {
            return false;
        }
        let mut offer: Offer<Entry, u64, Law, Nothing> = self
            .seen
            .plain::<Nothing, Heading, Add>(heading);
        let mut pen = self.seen.no_pen();
        let added = self.added;
        let found = book
            .head
            .compare_exchange::<Add, Nothing>(
                added,
                added + 1,
                &mut self.seen,
                &mut offer,
                &mut pen,
            );
        self.added = if found == added { added + 1 } else { found };
        found == added
    }
}
