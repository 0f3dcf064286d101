//! Where the count of a payload's entries stands.
ghost use Rattle.std.specs.Prelude.{◌≡◌, ◌≤◌, ◌+◌, length};
ghost use Rattle.entry_record.specs.History.{IsAdmitted};

use entry_record::Prepared;

/// How many bytes a payload has before its library code, whose length is the last of them.
const CODE_PLACE: usize = 13;

/// Where the count of entries stands in the payload of an item, and of those that are like it.
pub(crate) fn count_place(item: &Prepared) -> usize
    ensures value { result ≡ 13 + length item.now.library }
    ensures small { result ≤ 29 }
    ensures admitted { IsAdmitted item.now }
{
    CODE_PLACE + item.entry().library.len()
}
