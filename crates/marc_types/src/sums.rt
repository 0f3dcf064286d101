ghost use Rattle.std.specs.Prelude.{◌≡◌, ◌∷◌, []};
ghost use Rattle.marc_types.specs.Sums.{no_sums, with_receipts, HasRoom, AddsFew};

use crate::entry::Receipt;

/// The sums over the receipts of some entries: of their heading fields, how many are linked, ambiguous and unlinked; and how
/// many other records their commits changed.
#[derive(Clone, Copy, Debug, PartialEq, Eq)]
pub struct Sums {
    pub linked: u64,
    pub ambiguous: u64,
    pub unlinked: u64,
    pub changed: u64,
}

impl Sums {
    /// Of no receipt.
    pub fn none() -> Sums
        ensures { result ≡ no_sums }
    {
        Sums {
            linked: 0,
            ambiguous: 0,
            unlinked: 0,
            changed: 0,
        }
    }

    /// Adds one more receipt.
    pub fn add(&mut self, receipt: &Receipt)
        requires { HasRoom self.old receipt.now.changed_records }
        ensures sums { self.new ≡ with_receipts self.old (receipt.now ∷ []) }
        ensures few { AddsFew self.old self.new 1 }
    {
        self.linked += u64::from(receipt.linked);
        self.ambiguous += u64::from(receipt.ambiguous);
        self.unlinked += u64::from(receipt.unlinked);
        self.changed += receipt.changed_records;
    }
}
