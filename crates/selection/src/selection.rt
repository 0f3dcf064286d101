ghost use Rattle.std.specs.Prelude.{◌≡◌, Bool};
ghost use Rattle.marc_types.specs.declared.key.Key.{Key as AnyKey};
ghost use Rattle.selection.specs.Answers.{Answers};
ghost use Rattle.selection.specs.Selections.{ForSelected, IsCallable, Selects};

use marc_types::Key;

/// Which keys are kept: a stored closure on keys. Contracts tell of it that it may be called on every key, and which function on
/// keys it answers.
#[derive(Drop)]
pub struct Selection<F> {
    keep: F,
}

impl<F: Fn(&Key) -> bool> Selection<F> {
    /// The selection by a closure. It selects what any function says that the closure answers.
    pub fn new(keep: F) -> Selection<F>
        requires { F.IsAlwaysCallable keep }
        ensures callable { IsCallable F.Fn result }
        ensures selects { (kept : AnyKey → Bool) → Answers F.Fn keep kept → Selects F.Fn result kept }
    {
        Selection { keep }
    }

    /// Whether a key is kept.
    pub fn keeps(&self, key: &Key) -> bool
        requires { IsCallable F.Fn self.now }
        ensures { ForSelected F.Fn self.now (λ kept. result ≡ kept key.now) }
    {
        (self.keep)(key)
    }
}
