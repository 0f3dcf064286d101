ghost use Rattle.std.specs.Prelude.{◌≡◌, ◌+◌, ◌^◌, ◌<◌, ◌++◌, ◌↔◌, [], List, length, IsTrue};
ghost use Rattle.marc_types.specs.declared.entry.Entry.{Entry as AnyEntry};
ghost use Rattle.entry_record.specs.History.{last_run};
ghost use Rattle.entry_history.specs.Payloads.{CanFollow};
ghost use Rattle.entry_history.specs.Readers.{HasExtent};

use entry_record::Prepared;

/// How many entries a history has, and the run of the last of them, or 0: what decides which run may follow.
#[derive(Clone, Copy, Debug, PartialEq, Eq)]
pub struct Extent {
    pub count: u64,
    pub last_run: u64,
}

// The run of the last item, or of the last entry before it.
fn last_run(before: u64, items: &[Prepared]) -> u64
    ensures { (entries : List AnyEntry) → last_run entries ≡ before → result ≡ last_run (entries ++ items.now) }
{
    match items.last() {
        Some(item) => item.entry().run,
        None => before,
    }
}

impl Extent {
    /// Of no entry.
    pub(crate) fn none() -> Extent
        ensures extent { HasExtent [] result }
        ensures count { result.count ≡ 0 }
    {
        Extent {
            count: 0,
            last_run: 0,
        }
    }

    /// Of some entries.
    pub(crate) fn of(items: &[Prepared]) -> Extent
        ensures { HasExtent items.now result }
    {
        Extent {
            count: items.len() as u64,
            last_run: last_run(0, items),
        }
    }

    /// The extent with these entries behind.
    pub(crate) fn with(self, items: &[Prepared]) -> Extent
        requires room { self.count + length items.now < 2 ^ 64 }
        ensures extent { (before : List AnyEntry) → HasExtent before self → HasExtent (before ++ items.now) result }
        ensures count { result.count ≡ self.count + length items.now }
    {
        Extent {
            count: self.count + items.len() as u64,
            last_run: last_run(self.last_run, items),
        }
    }

    /// Whether a run can stand behind.
    pub(crate) fn can_follow(self, run: u64) -> bool
        ensures { (before : List AnyEntry) → HasExtent before self → IsTrue result ↔ CanFollow before run }
    {
        self.last_run <= run && run.saturating_sub(1) <= self.count
    }
}
