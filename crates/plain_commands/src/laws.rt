//! Laws of workloads: each is the contract of a function that does nothing.
ghost use Rattle.std.specs.Prelude.{◌≡◌, ◌≤◌, All, length};
ghost use Rattle.marc_types.specs.Limits.{most_made, plain_limits};
ghost use Rattle.entry_record.specs.History.{IsAdmitted, entry_size, entries_size};
ghost use Rattle.plain_commands.specs.Entries.{workload_entries};

/// A workload of at most 1,048,576 records has an entry for each, and they are within the limits that a catalogue has by itself.
#[tactic(auto, using(crate::proofs::Limits::entries_many, crate::proofs::Limits::entries_total, crate::proofs::Limits::entries_small, crate::proofs::Limits::entries_admitted))]
pub fn workloads_are_within_limits(seed: u64, count: u64)
    requires { count ≤ most_made }
    ensures number { length (workload_entries seed count) ≡ count }
    ensures size { entries_size (workload_entries seed count) ≤ plain_limits.bytes }
    ensures each { All (λ e. entry_size e ≤ 512) (workload_entries seed count) }
    ensures admitted { All IsAdmitted (workload_entries seed count) }
{}
