ghost use Rattle.std.specs.Prelude.{◌≡◌};
ghost use Rattle.loader_workers.specs.Counts.{unbegun};

use crate::counts::Counts;
use crate::file_end::FileEnd;
use file_entries::Refused;
use marc_types::{Sequence, Sums};
use std::alloc::Global;

/// What became of a file: its refused items, how many of its entries are committed, the sums over the receipts of these, and
/// why the loading ended.
#[derive(Debug, Drop)]
pub struct FileResult {
    pub refused: Refused,
    pub accepted: u64,
    pub sums: Sums,
    pub end: FileEnd,
}

/// The results of files, in the files' order.
pub type Results = Sequence<FileResult>;

/// There was no memory to begin.
pub(crate) fn unbegun(alloc: Global) -> FileResult
    ensures { result ≡ unbegun }
{
    Counts::none().result(Vec::new(alloc), FileEnd::NoMemory)
}
