//! What takes the entries of a history as they come.
ghost use Rattle.std.specs.Prelude.{◌≡◌, ◌++◌, List, length, OnOk, OnErr};
ghost use Rattle.marc_types.specs.declared.entry.Entry.{Entry as AnyEntry};

use crate::heading::Headings;
use marc_types::NoMemory;

/// Takes the entries of a history, some at a time, each as a heading.
pub trait HeadingTaker {
    /// The entries that it has taken.
    ghost taken: { Self → List AnyEntry };

    /// It takes more.
    ghost takes: { Self → Type 0 };

    /// Takes entries behind those that it took. Want of memory leaves these as they were.
    fn take(&mut self, headings: Headings) -> Result<(), NoMemory>
        requires { takes self.old }
        ensures taken { OnOk result (taken self.new ≡ taken self.old ++ headings) }
        ensures takes { OnOk result (takes self.new) }
        ensures err { OnErr result (taken self.new ≡ taken self.old) };

    /// How many entries it has taken.
    fn count(&self) -> u64
        ensures { result ≡ length (taken self.now) };
}
