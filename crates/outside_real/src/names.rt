ghost use Rattle.std.specs.Prelude.{◌≡◌, ◌≢◌, ℕ, List, true, false, OnOk, OnErr};
ghost use Rattle.std.specs.BTreeSet.{contains_text};

use std::alloc::{AllocError, Global};
use std::collections::BTreeSet;

/// The names of files that are open.
#[derive(Drop)]
pub struct Names {
    pub set: BTreeSet<String>,
}

impl Names {
    /// No name is open.
    pub fn new(alloc: Global) -> Self
        ensures { (n : List ℕ) → contains_text result.set n ≡ false }
    {
        Names {
            set: BTreeSet::new(alloc),
        }
    }

    /// The name is open from now on.
    pub fn add(&mut self, alloc: Global, name: &str) -> Result<(), AllocError>
        ensures added { OnOk result (contains_text self.new.set name.now ≡ true) }
        ensures others { (n : List ℕ) → n ≢ name.now → contains_text self.new.set n ≡ contains_text self.old.set n }
        ensures err { OnErr result ((n : List ℕ) → contains_text self.new.set n ≡ contains_text self.old.set n) }
    {
        let key = String::from_str(alloc, name)?;
        self.set.insert(key)?;
        Ok(())
    }

    /// The name is open no longer.
    pub fn remove(&mut self, name: &str)
        ensures removed { contains_text self.new.set name.now ≡ false }
        ensures others { (n : List ℕ) → n ≢ name.now → contains_text self.new.set n ≡ contains_text self.old.set n }
    {
        self.set.remove(name);
    }
}
