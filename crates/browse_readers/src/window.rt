//! What a reader looks at a table through.
ghost use Rattle.std.specs.Prelude.{◌≡◌, ℕ, ◌≤◌, List, IfOk, OnErr};
ghost use Rattle.std.specs.Fn.{FnOnceReturnsAt};
ghost use mathlib.Core.List.{IsPrefix};
ghost use Rattle.marc_types.specs.declared.entry.Entry.{Entry};
ghost use Rattle.heading_rows.specs.Listing.{table_of};
ghost use Rattle.browse_readers.specs.Browsing.{Rose};

use heading_rows::Table;

/// No table could be shown.
#[derive(Clone, Copy, Debug, PartialEq, Eq)]
pub struct Away;

/// Shows the table of a list that begins with all that it showed before, or is away. It counts how often it was away.
pub trait Window {
    /// A list that it shows at least.
    ghost known: { Self → List Entry };

    /// How often it was away.
    ghost refused: { Self → ℕ };

    /// Reads the table of a list that is then shown at least. Where it is away nothing else changes.
    fn with<T, F: FnOnce(&Table) -> T>(&mut self, read: F) -> Result<T, Away>
        requires { F.IsAlwaysCallable read }
        ensures begins { IsPrefix (known self.old) (known self.new) }
        ensures ok { IfOk result (λ r. FnOnceReturnsAt F.FnOnce read (table_of (known self.new)) r) }
        ensures away { OnErr result (known self.new ≡ known self.old) }
        ensures rose { OnErr result (Rose (refused self.old) (refused self.new)) }
        ensures later { refused self.old ≤ refused self.new };
}
