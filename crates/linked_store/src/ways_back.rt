//! The ways back: to the mark, and to what was before all changes that aren't kept yet.
ghost use Rattle.std.specs.Prelude.{◌≡◌};

use crate::back::{go_back, keep_all};
use crate::store::LinkedStore;

impl LinkedStore {
    /// Sets the mark: what follows can be taken back alone.
    pub fn mark(&mut self)
        ensures { self.new ≡ record { state = self.old.state; keys = self.old.keys; marked = self.old.state; before = self.old.before } }
    {
        self.marked = self.transaction.log.len();
    }

    /// Takes back all changes behind the mark. It takes no memory; keys keep their numbers.
    pub fn roll_back(&mut self)
        ensures { self.new ≡ record { state = self.old.marked; keys = self.old.keys; marked = self.old.marked; before = self.old.before } }
    {
        go_back(&mut self.transaction, self.marked);
    }

    /// Takes back all changes that aren't kept. It takes no memory; keys keep their numbers.
    pub fn undo(&mut self)
        ensures { self.new ≡ record { state = self.old.before; keys = self.old.keys; marked = self.old.before; before = self.old.before } }
    {
        go_back(&mut self.transaction, 0);
        self.marked = 0;
    }

    /// Keeps all changes: there is no way back from here. It takes no memory.
    pub fn keep(&mut self)
        ensures { self.new ≡ record { state = self.old.state; keys = self.old.keys; marked = self.old.state; before = self.old.state } }
    {
        keep_all(&mut self.transaction);
        self.marked = 0;
    }
}
