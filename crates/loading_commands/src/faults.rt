//! The fault of loading, as the console tells it.
ghost use Rattle.std.specs.Prelude.{◌≡◌, ◌↔◌, IsTrue};
ghost use Rattle.loading_commands.specs.Outcomes.{ends_so, any_ends, loading_fault};

use console_lines::Fault;
use loader_workers::{FileEnd, FileResult};

fn ends_so(end: FileEnd, is: FileEnd) -> bool
    ensures { result ≡ ends_so end is }
{
    matches!(
        (end, is),
        (FileEnd::Done, FileEnd::Done)
            | (FileEnd::ReadFault, FileEnd::ReadFault)
            | (FileEnd::Full, FileEnd::Full)
            | (FileEnd::DeviceFault, FileEnd::DeviceFault)
            | (FileEnd::NoMemory, FileEnd::NoMemory)
    )
}

fn any_ends(results: &[FileResult], end: FileEnd) -> bool
    ensures { result ≡ any_ends end results.now }
{
    results.iter().any(|file| ends_so(end, file.end))
}

/// The fault of loading, where a file's end is one: a device's before a full catalogue, that before a source's, and want of
/// memory last.
#[tactic(auto, unfolding(crate::specs::Outcomes::loading_fault))]
pub fn loading_fault(results: &[FileResult]) -> Option<Fault>
    ensures { result ≡ loading_fault results.now }
{
    if any_ends(results, FileEnd::DeviceFault) {
        Some(Fault::Device)
    } else if any_ends(results, FileEnd::Full) {
        Some(Fault::Full)
    } else if any_ends(results, FileEnd::ReadFault) {
        Some(Fault::Input)
    } else if any_ends(results, FileEnd::NoMemory) {
        Some(Fault::Memory)
    } else {
        None
    }
}
