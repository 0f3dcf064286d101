//! Whether an entry would pass the limits.
ghost use Rattle.std.specs.Prelude.{◌≡◌, ◌+◌, ◌^◌, ◌<◌, ◌||◌, nat_lt, false};
ghost use Rattle.entry_record.specs.History.{entry_size};

use entry_record::Prepared;
use marc_types::Limits;

/// Whether so many entries of so many bytes, with one entry more, are too many, or have too many bytes.
pub fn passes_limits(limits: &Limits, entries: u64, bytes: u64, item: &Prepared) -> bool
    ensures value { result ≡ (nat_lt limits.now.entries (entries + 1) || nat_lt limits.now.bytes (bytes + entry_size item.now)) }
    ensures room { result ≡ false → (entries + 1 < 2 ^ 64) × (bytes + entry_size item.now < 2 ^ 64) }
{
    entries >= limits.entries || item.size() > limits.bytes.saturating_sub(bytes)
}
