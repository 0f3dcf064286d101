ghost use Rattle.std.specs.Prelude.{◌≡◌};
ghost use Rattle.loader_workers.specs.Ends.{file_end_of, end_of_commit};

use marc_types::CommitFault;

/// Why the loading of a file ended.
#[derive(Clone, Copy, Debug, PartialEq, Eq)]
pub enum FileEnd {
    /// The source was read to its end, and all accepted entries are committed.
    Done,
    /// The source failed; what was accepted before is committed.
    ReadFault,
    /// The next accepted entry would pass the catalogue's limits.
    Full,
    /// A device of the catalogue failed, in this loader's commit or before.
    DeviceFault,
    NoMemory,
}

/// The end of a file of which a commit answers this.
fn file_end_of(fault: CommitFault) -> FileEnd
    ensures { result ≡ file_end_of fault }
{
    match fault {
        CommitFault::Full => FileEnd::Full,
        CommitFault::NoMemory => FileEnd::NoMemory,
        CommitFault::DeviceFault | CommitFault::Broken => FileEnd::DeviceFault,
    }
}

/// Why a file ends behind a commit that ended so; none where it goes on.
pub(crate) fn end_of_commit(end: Option<CommitFault>) -> Option<FileEnd>
    ensures { result ≡ end_of_commit end }
{
    end.map(file_end_of)
}
