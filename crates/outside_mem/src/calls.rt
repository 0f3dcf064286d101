ghost use Rattle.std.specs.Prelude.{◌≡◌, ◌≤◌, true, false};
ghost use Rattle.outside_mem.specs.Calls.{CallsState, is_next_listed, after_call, fresh_calls};

use std::marker::Model;

/// The fallible calls on an object: which are to fail, how many there were, and how many failed.
#[derive(Debug, Drop)]
pub struct Calls {
    fails: Vec<u64>,
    made: u64,
    faults: u64,
}

impl Model for Calls {
    ghost use Rattle.outside_mem.specs.Calls.{CallsState};

    ghost Value = { CallsState };

    ghost view = { λ c. record { fails = c.fails.items; made = c.made; faults = c.faults } };
}

impl Calls {
    /// No call was made yet. The calls with these numbers, counted from 0, are to fail.
    pub fn new(fails: Vec<u64>) -> Self
        ensures { result ≡ fresh_calls fails.items }
    {
        Calls {
            fails,
            made: 0,
            faults: 0,
        }
    }

    /// How many calls failed.
    pub fn faults(&self) -> u64
        ensures { result ≡ self.now.faults }
    {
        self.faults
    }

    /// Whether the next call is to fail.
    pub fn is_next_listed(&self) -> bool
        ensures { result ≡ is_next_listed self.now }
    {
        self.fails.contains(&self.made)
    }

    /// Counts a call that did not fail.
    pub fn count_success(&mut self)
        ensures { self.new ≡ after_call self.old false }
    {
        self.made = self.made.saturating_add(1);
    }

    /// Counts a call that failed.
    pub fn count_fault(&mut self)
        ensures counted { self.new ≡ after_call self.old true }
        ensures later { self.old.faults ≤ self.new.faults }
    {
        self.made = self.made.saturating_add(1);
        self.faults = self.faults.saturating_add(1);
    }
}
