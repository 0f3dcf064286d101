ghost use Rattle.std.specs.Prelude.{◌≡◌, ◌+◌, ◌-◌, ◌^◌, min};
ghost use Rattle.outside.specs.Fault.{count_sum};

/// One fault more; a count ends at its greatest number.
pub fn raised(count: u64) -> u64
    ensures { result ≡ count_sum count 1 }
{
    count.saturating_add(1)
}

/// Two counts together.
pub fn added(first: u64, second: u64) -> u64
    ensures { result ≡ count_sum first second }
{
    first.saturating_add(second)
}
